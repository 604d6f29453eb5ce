// The scale of billionths.
ghost use Rattle.std.specs.Prelude.{◌≤◌};

pub mod rounded;

/// The chance units / 10^9, at most 1.
#[derive(Clone, Copy, Debug, PartialEq, Eq, PartialOrd, Ord)]
pub struct Billionth {
    pub units: u64,
    ghost to_one: { units ≤ 1000000000 },
}

pub struct Billionths;
