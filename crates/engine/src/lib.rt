// Studies of a network: set-up, aims, advances, showings, bounds, and whole lists of calls.
#![tactic(auto)]

pub mod call;
pub mod carry;
mod listing;
pub mod progress;
mod questions;
mod stage;
pub mod study;
