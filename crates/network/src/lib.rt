// Networks of nodes and branches: what every network answers, the questions asked of one, the list and the ring.
#![tactic(auto)]

pub mod borrowed;
pub mod branch;
pub mod branches;
pub mod cut;
pub mod list;
pub mod questions;
pub mod rating;
pub mod ring;
pub mod traits;
