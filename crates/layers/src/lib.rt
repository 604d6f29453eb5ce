// Layers over any network: one branch told as failed or working, and two networks joined at a node.
#![tactic(auto)]

pub mod joint;
pub mod mark;
mod renumbering;
