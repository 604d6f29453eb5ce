// The cuts of rows, in listing order.
ghost use Rattle.std.specs.Prelude.{◌≡◌, [], map};
ghost use Rattle.search.specs.Tables.{rows_of};
ghost use Rattle.search.specs.Listed.{row_cut};

use arrayvec::ArrayVec;
use network::cut::Cut;
use network::traits::Network;
use search::cut::cut_of;
use search::table::Table;

// Lists the cut of each row. The list is the caller's: handed back by value, its 512 places would be copied for each question.
pub(crate) fn list_cuts<N: Network>(network: &N, table: &Table, cuts: &mut ArrayVec<Cut, 512>)
    requires { cuts.old.items ≡ [] }
    ensures { cuts.new.items ≡ map (row_cut (N.net network.now)) (rows_of table.now) }
{
    for row in table.rows() {
        cuts.push(cut_of(network, row));
    }
}
