// What an aim asks of a door, and the row that it begins with.
ghost use Rattle.std.specs.Prelude.{◌≡◌};
ghost use Rattle.search.specs.Cuts.{present, sure};
ghost use Rattle.search.specs.Search.{linked, first_row};
ghost use Rattle.search.specs.Steps.{kept};

use crate::closure::closure_of;
use crate::reach::{Over, reach};
use crate::row::Row;
use network::traits::Network;
use sets::set::NodeSet;

// Whether the branches that may be used join two nodes.
// Stays a network beside nodes: each public call is lent them, and would make a struct for one private function.
fn has_chain<N: Network>(network: &N, over: Over, head: u32, door: u32) -> bool
    ensures { result ≡ linked (N.net network.now) (kept over (N.net network.now)) head door }
{
    reach(network, over, NodeSet::new(), NodeSet::single(head)).contains(door)
}

/// Is the door joined to the head?
pub fn is_joined<N: Network>(network: &N, head: u32, door: u32) -> bool
    ensures { result ≡ linked (N.net network.now) (present (N.net network.now)) head door }
{
    has_chain(network, Over::Present, head, door)
}

/// Would they still be joined if every branch able to fail had failed?
pub fn is_held<N: Network>(network: &N, head: u32, door: u32) -> bool
    ensures { result ≡ linked (N.net network.now) (sure (N.net network.now)) head door }
{
    has_chain(network, Over::Sure, head, door)
}

/// Row 0 of a search.
pub fn first_row<N: Network>(network: &N, head: u32, door: u32) -> Row
    ensures { result ≡ first_row (N.net network.now) head door }
{
    Row {
        inside: closure_of(network, door, NodeSet::single(head)),
        barred: NodeSet::single(door),
    }
}
