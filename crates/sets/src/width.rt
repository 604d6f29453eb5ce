// How many numbers a set may hold.
ghost use Rattle.std.specs.Prelude.{ℕ, ◌≤◌};
ghost use Rattle.std.proofs.Common.{arith};

/// A set at this width has members below BITS, and fits one word.
pub trait Width: Copy + Drop {
    ghost BITS: { ℕ };

    ghost narrow: { BITS ≤ 64 };

    const BITS: u32;
}

/// A network has at most 32 nodes.
#[derive(Clone, Copy)]
pub struct OfNodes;

impl Width for OfNodes {
    ghost BITS = { 32 };

    ghost narrow = { Prim.omega arith };

    const BITS: u32 = 32;
}

/// A network has at most 64 branches.
#[derive(Clone, Copy)]
pub struct OfBranches;

impl Width for OfBranches {
    ghost BITS = { 64 };

    ghost narrow = { Prim.omega arith };

    const BITS: u32 = 64;
}
