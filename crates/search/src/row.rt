// A row of the search: the nodes inside, and those that may not come inside.
use sets::set::NodeSet;

#[derive(Clone, Copy, Debug, PartialEq, Eq)]
pub struct Row {
    pub inside: NodeSet,
    pub barred: NodeSet,
}
