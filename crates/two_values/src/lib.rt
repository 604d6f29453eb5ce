// The smallest scale there is: 0 and 1 alone.
#![tactic(auto)]

pub mod extreme;
