// The two numbers, and the scale.
pub mod rounded;

#[derive(Clone, Copy, Debug, PartialEq, Eq, PartialOrd, Ord)]
pub enum Extreme {
    Never,
    Surely,
}

pub struct TwoValues;
