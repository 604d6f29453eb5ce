// The cut of a row: its branch set and its node vector.
ghost use Rattle.std.specs.Prelude.{◌≡◌};
ghost use Rattle.search.specs.Listed.{row_cut};
ghost use Rattle.search.specs.Search.{branch_set, node_vector};
ghost use Rattle.search.specs.Steps.{parts};

use crate::nodes::all_nodes;
use crate::row::Row;
use network::branch::{Branch, Condition};
use network::branches::branches_of;
use network::cut::Cut;
use network::traits::Network;
use sets::set::{BranchSet, NodeSet};

// Whether b is able to fail and has exactly one end inside.
fn is_parted(inside: NodeSet, b: Branch) -> bool
    ensures { result ≡ parts inside b }
{
    b.condition == Condition::Able && inside.contains(b.from) != inside.contains(b.to)
}

/// The branches able to fail with exactly one end inside.
pub fn branch_set_of<N: Network>(network: &N, row: &Row) -> BranchSet
    ensures { result ≡ branch_set (N.net network.now) row.now }
{
    let mut set = BranchSet::new();
    for (k, b) in branches_of(network) {
        if is_parted(row.inside, b) {
            set.insert(k);
        }
    }
    set
}

/// The nodes not inside.
pub fn node_vector_of<N: Network>(network: &N, row: &Row) -> NodeSet
    ensures { result ≡ node_vector (N.net network.now) row.now }
{
    all_nodes(network) - row.inside
}

/// The branch set and the node vector of a row.
pub fn cut_of<N: Network>(network: &N, row: &Row) -> Cut
    ensures { result ≡ row_cut (N.net network.now) row.now }
{
    Cut {
        branches: branch_set_of(network, row),
        nodes: node_vector_of(network, row),
    }
}
