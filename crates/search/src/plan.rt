// What the search does next.
ghost use Rattle.std.specs.Prelude.{◌≡◌};
ghost use Rattle.search.specs.Tables.{rows_of};
ghost use Rattle.search.specs.Steps.{Shut, clear_row, first_open, row_by, planned, status_at};

use crate::candidates::lowest_candidate;
use crate::closure::closure_of;
use crate::row::Row;
use crate::status::Status;
use crate::table::Table;
use network::traits::Network;
use sets::set::NodeSet;

// A node tried in a row, and the row that this writes, if it writes one.
#[derive(Clone, Copy)]
pub(crate) struct Try {
    pub(crate) row: usize,
    pub(crate) node: u32,
    pub(crate) written: Option<Row>,
}

// Why no try can be made.
#[derive(Clone, Copy, Debug, PartialEq, Eq)]
pub(crate) enum Halt {
    // no row has a candidate
    Finished,
    // the next try would write a row, and there is no room for one
    Full,
}

impl From<Halt> for Status {
    ghost from_gives = { λ halt status. status ≡ status_at halt };

    fn from(halt: Halt) -> Status {
        match halt {
            Halt::Finished => Status::Finished,
            Halt::Full => Status::Full,
        }
    }
}

// The first row that has a candidate, with its lowest one, where none of the first rows has any.
fn first_try<N: Network>(table: &Table, network: &N, first: usize) -> Option<(usize, u32)>
    requires { Shut (N.net network.now) (rows_of table.now) first }
    ensures { result ≡ first_open (N.net network.now) (rows_of table.now) }
{
    let rest = table.rows().get(first..)?;
    // Stays a loop: after find_map the proof that no earlier row has a candidate does not close.
    for (i, row) in rest.iter().enumerate() {
        if let Some(node) = lowest_candidate(network, row) {
            return Some((first + i, node));
        }
    }
    None
}

// The row of a closure, unless that holds a barred node.
fn clear_row(inside: NodeSet, barred: NodeSet) -> Option<Row>
    ensures { result ≡ clear_row inside barred }
{
    inside.is_disjoint(barred).then_some(Row { inside, barred })
}

// The row that a try of the node writes: the closure of the inside set with it, and the barred set as it was.
fn row_by<N: Network>(network: &N, door: u32, row: &Row, node: u32) -> Option<Row>
    ensures { result ≡ row_by (N.net network.now) door row.now node }
{
    clear_row(
        closure_of(network, door, row.inside | NodeSet::single(node)),
        row.barred,
    )
}

// The next try, where the first rows have no candidate.
pub(crate) fn next_try<N: Network>(
    table: &Table,
    network: &N,
    door: u32,
    first: usize,
) -> Result<Try, Halt>
    requires { Shut (N.net network.now) (rows_of table.now) first }
    ensures { result ≡ planned (N.net network.now) door (rows_of table.now) }
{
    let (row, node) = first_try(table, network, first).ok_or(Halt::Finished)?;
    let written = row_by(network, door, &table.rows()[row], node);
    if written.is_some() && table.is_full() {
        return Err(Halt::Full);
    }
    Ok(Try { row, node, written })
}
