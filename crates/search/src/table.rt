// The table of rows. Its methods stand below, in `reading` and `writing`, where their contracts may speak of the rows as a list.
ghost use Rattle.std.specs.Prelude.{◌≡◌, ◌≤◌, length};

use crate::row::Row;

mod reading;
mod writing;

/// At most 512 rows, in the order in which they were written.
// Stays an array with a count beside it: a rule of the project fixes the table as 512 rows, each a struct, in one struct.
#[derive(Drop)]
pub struct Table {
    rows: [Row; 512],
    count: usize,
    ghost few: { count ≤ 512 },
    ghost whole: { length rows ≡ 512 },
}
