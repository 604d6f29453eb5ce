// The branches of a table that the caller holds.
ghost use Rattle.std.specs.Prelude.{◌≡◌, ◌≤◌, true, length, is_ok};
ghost use Rattle.network.specs.Questions.{rows_asked};

use crate::branch::TableRow;

pub mod answers;
pub mod filling;

/// At first the empty network. Only a table that passed every question is held.
#[derive(Drop)]
pub struct List<'a> {
    nodes: u32,
    table: &'a [TableRow],
    ghost few: { nodes ≤ 32 },
    ghost short: { length table.now ≤ 64 },
    ghost sound: { is_ok (rows_asked nodes 0 table.now) ≡ true },
}
