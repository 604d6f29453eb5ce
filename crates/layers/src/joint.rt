// Two networks joined at a node.
ghost use Rattle.std.specs.Prelude.{◌≡◌, length};
ghost use Rattle.std.proofs.Common.{ap₂};
ghost use Rattle.std.specs.List.{slice_get};
ghost use Rattle.layers.specs.Meaning.{joint_fits, joint_net, joint_rated};
ghost use Rattle.layers.specs.Laws.{Joined, JoinedNodes, JoinedBranches, JoinedBranch, JoinedRating};
ghost use Rattle.layers.specs.Legality.{legal-joint, legal-joint_rated};

use crate::renumbering::Renumbering;
use network::branch::Branch;
use network::rating::Rating;
use network::traits::{Network, RatedNetwork};

/// Node 0 of the second network becomes node `node` of the first, and its other nodes and its branches are numbered after
/// the first's. The empty network if there is no such node, the second has no node, or there would be more than 32 nodes
/// or 64 branches.
#[derive(Drop)]
pub struct Joint<P, Q> {
    first: P,
    second: Q,
    node: u32,
}

impl<P: Network, Q: Network> Joint<P, Q> {
    pub fn at(first: P, second: Q, node: u32) -> Joint<P, Q>
        ensures made { (result.first ≡ first) × (result.second ≡ second) × (result.node ≡ node) }
        ensures law { Joined node (P.Network.net first) (Q.Network.net second) (⟦<Joint<P, Q> as Network>⟧.net result) }
    {
        Joint {
            first,
            second,
            node,
        }
    }

    fn joinable(&self) -> bool
        ensures { result ≡ joint_fits self.now.node (P.Network.net self.now.first) (Q.Network.net self.now.second) }
    {
        let nodes = self.first.nodes();
        let more = self.second.nodes();
        if self.node >= nodes || more == 0 {
            return false;
        }
        nodes + more - 1 <= 32 && self.first.branches() + self.second.branches() <= 64
    }
}

impl<P: Network, Q: Network> Network for Joint<P, Q> {
    ghost net = { λ s. joint_net s.node (P.Network.net s.first) (Q.Network.net s.second) };

    ghost legal = { λ s.
        legal-joint
        s.node
        (P.Network.net s.first)
        (Q.Network.net s.second)
        (P.Network.legal s.first)
        (Q.Network.legal s.second) };

    // Stays a test in each of the four answers: where the joint is not possible two answer 0, and two answer `None`.
    fn nodes(&self) -> u32
        ensures meaning { result ≡ (⟦<Joint<P, Q> as Network>⟧.net self.now).nodes }
        ensures law { JoinedNodes self.now.node (P.Network.net self.now.first) (Q.Network.net self.now.second) result }
    {
        if !self.joinable() {
            return 0;
        }
        self.first.nodes() + self.second.nodes() - 1
    }

    fn branches(&self) -> u32
        ensures meaning { result ≡ length (⟦<Joint<P, Q> as Network>⟧.net self.now).branches }
        ensures law { JoinedBranches self.now.node (P.Network.net self.now.first) (Q.Network.net self.now.second) result }
    {
        if !self.joinable() {
            return 0;
        }
        self.first.branches() + self.second.branches()
    }

    fn branch(&self, k: u32) -> Option<Branch>
        ensures meaning { result ≡ slice_get (⟦<Joint<P, Q> as Network>⟧.net self.now).branches k }
        ensures law { JoinedBranch self.now.node (P.Network.net self.now.first) (Q.Network.net self.now.second) k result }
    {
        if !self.joinable() {
            return None;
        }
        let count = self.first.branches();
        if k < count {
            return self.first.branch(k);
        }
        let renumbering = Renumbering {
            nodes: self.first.nodes(),
            at: self.node,
        };
        renumbering.branch(&self.second, k - count)
    }
}

impl<P: RatedNetwork, Q: RatedNetwork> RatedNetwork for Joint<P, Q> {
    ghost rated = { λ s. joint_rated s.node (P.RatedNetwork.rated s.first) (Q.RatedNetwork.rated s.second) };

    ghost legal = { λ s.
        legal-joint_rated
        s.node
        (P.RatedNetwork.rated s.first)
        (Q.RatedNetwork.rated s.second)
        (P.RatedNetwork.legal s.first)
        (Q.RatedNetwork.legal s.second) };

    ghost same = { λ s. ap₂ (joint_net s.node) (P.RatedNetwork.same s.first) (Q.RatedNetwork.same s.second) };

    // Stays beside `branch`, in the same steps: a type for "of the first, of the second, of neither" is longer than two tests.
    fn rating(&self, k: u32) -> Option<Rating>
        ensures answer { result ≡ slice_get (⟦<Joint<P, Q> as RatedNetwork>⟧.rated self.now).ratings k }
        ensures same { (⟦<Joint<P, Q> as RatedNetwork>⟧.rated self.now).plain ≡ ⟦<Joint<P, Q> as Network>⟧.net self.now }
        ensures law { JoinedRating self.now.node (P.Network.net self.now.first) (Q.Network.net self.now.second) (P.RatedNetwork.rated self.now.first).ratings (Q.RatedNetwork.rated self.now.second).ratings k result }
    {
        if !self.joinable() {
            return None;
        }
        let count = self.first.branches();
        if k < count {
            return self.first.rating(k);
        }
        self.second.rating(k - count)
    }
}
