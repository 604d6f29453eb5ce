// The search for the minimal cuts of a door, over any network.
#![tactic(auto)]

mod candidates;
mod closure;
pub mod cut;
pub mod laws;
mod nodes;
mod plan;
pub mod questions;
mod reach;
pub mod row;
pub mod run;
pub mod status;
pub mod table;
