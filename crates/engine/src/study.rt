// A study of a network from one head. Its calls stand below, in `calls`, where their contracts may speak of its state.
ghost use Rattle.std.specs.Prelude.{◌≤◌};
ghost use Rattle.search.specs.Barred.{all_barred};
ghost use Rattle.search.specs.Tables.{rows_of};

use crate::stage::Stage;
use search::table::Table;

mod calls;

/// The head of the set-up with the door of the last accepted aim since then, and the rows found and tries made since that
/// aim. Each try bars a node, so the tries are at most 32 for each row.
#[derive(Drop)]
pub struct Study {
    stage: Stage,
    table: Table,
    tries: u32,
    ghost counted: { tries ≤ all_barred (rows_of table) },
}
