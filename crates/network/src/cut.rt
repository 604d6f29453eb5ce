// A cut, as a study lists it.
use sets::set::{BranchSet, NodeSet};

/// The branches whose loss cuts a door off, and the node vector: the nodes that are cut off with it.
#[derive(Clone, Copy, Debug, Default, PartialEq, Eq)]
pub struct Cut {
    pub branches: BranchSet,
    pub nodes: NodeSet,
}
