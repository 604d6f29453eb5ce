// `a | b`, `a & b` and `a - b`.
ghost use Rattle.std.specs.Prelude.{◌≡◌, not, ◌&&◌, bit_and, bit_or};
ghost use Rattle.sets.specs.Masks.{has, collect};

use crate::set::Set;
use crate::width::Width;
use std::ops::{BitAnd, BitOr, Sub};

impl<W: Width> BitOr for Set<W> {
    type Output = Set<W>;

    ghost bitor_gives = { λ a b r. r ≡ bit_or a b };

    fn bitor(self, other: Set<W>) -> Set<W> {
        Set::of(self.word | other.word)
    }
}

impl<W: Width> BitAnd for Set<W> {
    type Output = Set<W>;

    ghost bitand_gives = { λ a b r. r ≡ bit_and a b };

    fn bitand(self, other: Set<W>) -> Set<W> {
        Set::of(self.word & other.word)
    }
}

impl<W: Width> Sub for Set<W> {
    type Output = Set<W>;

    ghost sub_gives = { λ a b r. r ≡ collect W.BITS (λ v. has a v && not (has b v)) };

    fn sub(self, other: Set<W>) -> Set<W> {
        Set::of(self.word & !other.word)
    }
}
