// The nodes reached from a set of nodes.
ghost use Rattle.std.specs.Prelude.{◌≡◌, ◌==◌, ◌&&◌};
ghost use Rattle.sets.specs.Masks.{has, collect};
ghost use Rattle.search.specs.Search.{meets, touches, widened, spread};
ghost use Rattle.search.specs.Steps.{carries, kept, avoiding};

use crate::nodes::all_nodes;
use network::branch::{Branch, Condition};
use network::branches::branches_of;
use network::traits::Network;
use sets::set::NodeSet;

// Which branches a walk may use: those not failed, or the working ones alone.
// Stays an enum that is handed down: the law of a closure would stand in each of the four contracts that it passes.
#[derive(Clone, Copy)]
pub(crate) enum Over {
    Present,
    Sure,
}

impl Over {
    fn allows(self, condition: Condition) -> bool
        ensures { result ≡ carries self condition }
    {
        match self {
            Over::Present => condition != Condition::Failed,
            Over::Sure => condition == Condition::Working,
        }
    }
}

// The far end of a branch, if the near end is a member of the set.
fn far_end(near: u32, far: u32, set: NodeSet) -> NodeSet
    ensures { result ≡ collect 32 (λ v. far == v && has set near) }
{
    if set.contains(near) {
        NodeSet::single(far)
    } else {
        NodeSet::new()
    }
}

// The nodes that b joins to a member of the set.
fn joined_by(b: Branch, set: NodeSet) -> NodeSet
    ensures { result ≡ collect 32 (meets b set) }
{
    far_end(b.from, b.to, set) | far_end(b.to, b.from, set)
}

// The nodes that a branch joins to a member of the set.
pub(crate) fn touching<N: Network>(network: &N, over: Over, set: NodeSet) -> NodeSet
    ensures { result ≡ collect (N.net network.now).nodes (touches (N.net network.now) (kept over (N.net network.now)) set) }
{
    let mut met = NodeSet::new();
    for (_, b) in branches_of(network) {
        if over.allows(b.condition) {
            met = met | joined_by(b, set);
        }
    }
    met
}

// The set with what it touches.
fn widen<N: Network>(network: &N, over: Over, avoid: NodeSet, set: NodeSet) -> NodeSet
    ensures { result ≡ widened (N.net network.now).nodes (avoiding over (N.net network.now) avoid) set }
{
    let near = touching(network, over, set) - avoid;
    (set | near) & all_nodes(network)
}

// The nodes reached from the start by way of nodes that are not to be avoided.
pub(crate) fn reach<N: Network>(network: &N, over: Over, avoid: NodeSet, start: NodeSet) -> NodeSet
    ensures { result ≡ spread (N.net network.now).nodes (avoiding over (N.net network.now) avoid) (N.net network.now).nodes start }
{
    let mut set = start;
    // each round but the last adds a node
    for _ in 0..network.nodes() {
        let wider = widen(network, over, avoid, set);
        if wider == set {
            return set;
        }
        set = wider;
    }
    set
}
