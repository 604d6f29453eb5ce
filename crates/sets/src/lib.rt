// Sets of nodes and of branches as bit masks, and the lemmas about them that the other crates share.
#![tactic(auto)]

pub mod set;
pub mod width;
