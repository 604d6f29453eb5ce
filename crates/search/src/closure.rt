// Closures of node sets.
ghost use Rattle.std.specs.Prelude.{◌≡◌};
ghost use Rattle.search.specs.Search.{held, outside, closure};

use crate::nodes::all_nodes;
use crate::reach::{Over, reach};
use network::traits::Network;
use sets::set::NodeSet;

// The set with every node reached from it over working branches.
fn held_by<N: Network>(network: &N, set: NodeSet) -> NodeSet
    ensures { result ≡ held (N.net network.now) set }
{
    reach(network, Over::Sure, NodeSet::new(), set)
}

// The nodes with a chain to the door that avoids the set.
fn outside_of<N: Network>(network: &N, door: u32, set: NodeSet) -> NodeSet
    ensures { result ≡ outside (N.net network.now) door set }
{
    reach(network, Over::Present, set, NodeSet::single(door))
}

// Every node without a chain to the door that avoids what the set holds; all nodes where it holds the door.
pub(crate) fn closure_of<N: Network>(network: &N, door: u32, set: NodeSet) -> NodeSet
    ensures { result ≡ closure (N.net network.now) door set }
{
    let all = all_nodes(network);
    let kept = held_by(network, set);
    if kept.contains(door) {
        return all;
    }
    all - outside_of(network, door, kept)
}
