// The members of a set, one after another.
ghost use Rattle.std.specs.Prelude.{◌≡◌};
ghost use Rattle.std.specs.Iterator.{YieldsFirst, item_count};
ghost use Rattle.sets.specs.Masks.{members};

use crate::set::Set;
use crate::width::Width;
use std::marker::Model;

/// Gives the members that are left, rising. A contract sees the list of these.
#[derive(Drop)]
pub struct Members<W: Width> {
    rest: Set<W>,
}

impl<W: Width> Model for Members<W> {
    ghost use Rattle.std.specs.Prelude.{ℕ, List};
    ghost use Rattle.sets.specs.Masks.{members};

    ghost Value = { List ℕ };

    ghost view = { λ s. members W.BITS s.rest };
}

impl<W: Width> Iterator for Members<W> {
    type Item = u32;

    ghost next_gives = { YieldsFirst (λ rest. rest) };

    ghost remaining = { item_count (λ rest. rest) };

    fn next(&mut self) -> Option<u32> {
        let first = self.rest.first()?;
        self.rest = self.rest - Set::single(first);
        Some(first)
    }
}

impl<W: Width> IntoIterator for Set<W> {
    type Item = u32;

    type IntoIter = Members<W>;

    ghost into_iter_gives = { λ set made. made ≡ members W.BITS set };

    fn into_iter(self) -> Members<W> {
        Members { rest: self }
    }
}
