// Bounds on the chance that a door is cut off, in any scale.
#![tactic(auto)]

pub mod bounds;
mod ratings;
