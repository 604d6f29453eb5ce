// Sets of small numbers.
ghost use Rattle.std.specs.Prelude.{◌≡◌, ◌-◌, ◌^◌, ◌<◌, ◌≤◌, not, ◌&&◌, nat_eq, nat_lt, bit_or};
ghost use Rattle.sets.specs.Masks.{has, collect, any, lowest};

use crate::width::{OfBranches, OfNodes, Width};
use std::marker::{Model, PhantomData};

mod convert;
mod debug;
pub mod members;
mod operators;

/// A set of numbers below a width: bit k of the word says whether k is a member. A contract sees the number that the word is.
#[derive_where(Clone, Copy, Default, PartialEq, Eq)]
pub struct Set<W: Width> {
    word: u64,
    #[derive_where(skip)]
    width: PhantomData<W>,
}

impl<W: Width> Model for Set<W> {
    ghost use Rattle.std.specs.Prelude.{ℕ, ◌<◌, ◌^◌};

    ghost Value = { ℕ };

    ghost view = { λ s. s.word };

    ghost invariant = { λ s. s.word < 2 ^ W.BITS };

    ghost inverse = { λ n. record { word = n; width = record {} } };
}

/// Sets of nodes.
pub type NodeSet = Set<OfNodes>;

/// Sets of branches.
pub type BranchSet = Set<OfBranches>;

// The n lowest bits.
fn ones(n: u32) -> u64
    requires { n ≤ 64 }
    ensures { result ≡ 2 ^ n - 1 }
{
    if n < u64::BITS {
        (1u64 << n) - 1
    } else {
        u64::MAX
    }
}

impl<W: Width> Set<W> {
    fn of(word: u64) -> Set<W>
        requires { word < 2 ^ W.BITS }
        ensures { result ≡ word }
    {
        Set {
            word,
            width: PhantomData,
        }
    }

    /// The set without members.
    pub fn new() -> Set<W>
        ensures { result ≡ 0 }
    {
        Set::of(0)
    }

    /// The set of one number; a number past the width is in no set.
    pub fn single(k: u32) -> Set<W>
        ensures { result ≡ collect W.BITS (λ v. nat_eq v k) }
    {
        if k < W::BITS {
            Set::of(1u64 << k)
        } else {
            Set::new()
        }
    }

    /// The numbers below a count.
    pub fn below(count: u32) -> Set<W>
        ensures { result ≡ collect W.BITS (λ v. nat_lt v count) }
    {
        Set::of(ones(count.min(W::BITS)))
    }

    pub fn is_empty(self) -> bool
        ensures { result ≡ nat_eq self 0 }
    {
        self == Set::new()
    }

    pub fn contains(self, k: u32) -> bool
        ensures { result ≡ has self k }
    {
        self.word & Set::<W>::single(k).word != 0
    }

    /// Adds k, unless it is past the width.
    pub fn insert(&mut self, k: u32)
        ensures { self.new ≡ bit_or self.old (collect W.BITS (λ v. nat_eq v k)) }
    {
        *self = *self | Set::single(k);
    }

    /// Whether the two sets have no member in common.
    pub fn is_disjoint(self, other: Set<W>) -> bool
        ensures { result ≡ not (any W.BITS (λ v. has self v && has other v)) }
    {
        self.word & other.word == 0
    }

    /// The lowest member.
    pub fn first(self) -> Option<u32>
        ensures { result ≡ lowest W.BITS (has self) }
    {
        (!self.is_empty()).then_some(self.word.trailing_zeros())
    }
}
