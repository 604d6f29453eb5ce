// A set from its bare word, and back.
ghost use Rattle.std.specs.Prelude.{◌≡◌};

use crate::set::{BranchSet, NodeSet, Set};

impl From<u32> for NodeSet {
    ghost from_gives = { λ word set. set ≡ word };

    fn from(word: u32) -> NodeSet {
        Set::of(u64::from(word))
    }
}

impl From<NodeSet> for u32 {
    ghost from_gives = { λ set word. word ≡ set };

    fn from(set: NodeSet) -> u32 {
        set.word as u32
    }
}

impl From<u64> for BranchSet {
    ghost from_gives = { λ word set. set ≡ word };

    fn from(word: u64) -> BranchSet {
        Set::of(word)
    }
}

impl From<BranchSet> for u64 {
    ghost from_gives = { λ set word. word ≡ set };

    fn from(set: BranchSet) -> u64 {
        set.word
    }
}
