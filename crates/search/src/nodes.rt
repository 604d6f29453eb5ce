// The nodes of a network as a set.
ghost use Rattle.std.specs.Prelude.{◌≡◌};
ghost use Rattle.search.specs.Steps.{all_nodes};

use network::traits::Network;
use sets::set::NodeSet;

pub(crate) fn all_nodes<N: Network>(network: &N) -> NodeSet
    ensures { result ≡ all_nodes (N.net network.now) }
{
    NodeSet::below(network.nodes())
}
