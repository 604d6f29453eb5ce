// Tries one after another, and how the search then stands.
ghost use Rattle.std.specs.Prelude.{◌≡◌, ℕ, ◌+◌, length};
ghost use Rattle.search.specs.Search.{status, run, searched};
ghost use Rattle.search.specs.Tables.{rows_of};
ghost use Rattle.search.specs.Steps.{Room, applied};

use crate::plan::{Try, next_try};
use crate::status::Status;
use crate::table::Table;
use network::traits::Network;

// Bars the node in its row, and writes the new row after the others.
fn apply(table: &mut Table, made: Try)
    requires { Room made (length (rows_of table.old)) }
    ensures { rows_of table.new ≡ applied made (rows_of table.old) }
{
    table.bar(made.row, made.node);
    if let Some(row) = made.written {
        table.push(row);
    }
}

/// Makes tries until the budget is spent or none can be made, and answers how many.
// Stays a network beside a door: each public call is lent both, and would make the struct for one or two private functions.
pub fn run_tries<N: Network>(table: &mut Table, network: &N, door: u32, budget: u32) -> u32
    ensures { (t : ℕ) → searched (rows_of table.new) (t + result) ≡ run (N.net network.now) door budget (searched (rows_of table.old) t) }
{
    // no row before the first has a candidate
    let mut first = 0;
    for tries in 0..budget {
        let Ok(t) = next_try(table, network, door, first) else {
            return tries;
        };
        first = t.row;
        apply(table, t);
    }
    budget
}

/// How the search stands.
pub fn status_of<N: Network>(table: &Table, network: &N, door: u32) -> Status
    ensures { result ≡ status (N.net network.now) door (rows_of table.now) }
{
    match next_try(table, network, door, 0) {
        Ok(_) => Status::More,
        Err(halt) => halt.into(),
    }
}
