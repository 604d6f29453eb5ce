// What every network answers.
ghost use Rattle.std.specs.Prelude.{◌≡◌, ◌≤◌, length, IfSome};
ghost use Rattle.std.specs.List.{slice_get};
ghost use Rattle.network.specs.Meaning.{Net, RatedNet, Within, Legal, LegalRated};

use crate::branch::Branch;
use crate::rating::Rating;

pub trait Network {
    // What the network means: its node count and its branches.
    ghost net: { Self → Net };

    // Every network is within the limits, and its branches end at its nodes.
    ghost legal: { (x : Self) → Legal (net x) };

    fn nodes(&self) -> u32
        ensures { result ≡ (net self.now).nodes };

    fn branches(&self) -> u32
        ensures { result ≡ length (net self.now).branches };

    /// Branch k; a number at or past the count has no branch.
    fn branch(&self, k: u32) -> Option<Branch>
        ensures { result ≡ slice_get (net self.now).branches k };
}

/// A network that also tells each branch's rating.
pub trait RatedNetwork: Network {
    // What the rated network means: nodes, branches and ratings together.
    ghost rated: { Self → RatedNet };

    // Every branch has a rating.
    ghost legal: { (x : Self) → LegalRated (rated x) };

    /// The rating of branch k; a number at or past the count has no rating.
    fn rating(&self, k: u32) -> Option<Rating>
        ensures answer { result ≡ slice_get (rated self.now).ratings k }
        ensures same { (rated self.now).plain ≡ Self.Network.net self.now };

    // Nodes and branches are those of `Network`.
    ghost same: { (x : Self) → (rated x).plain ≡ Self.Network.net x };
}

// Stays three functions beside the trait: as clauses of its methods, each network would have to show the limits again.

/// The node count, with the limit that every network keeps.
pub fn node_count<N: Network>(network: &N) -> u32
    ensures answer { result ≡ (N.Network.net network.now).nodes }
    ensures few { result ≤ 32 }
{
    network.nodes()
}

/// The branch count, with the limit that every network keeps.
pub fn branch_count<N: Network>(network: &N) -> u32
    ensures answer { result ≡ length (N.Network.net network.now).branches }
    ensures few { result ≤ 64 }
{
    network.branches()
}

/// Branch k, with what every network shows of it: its ends are nodes, of which there are at most 32.
pub fn branch_within<N: Network>(network: &N, k: u32) -> Option<Branch>
    ensures answer { result ≡ slice_get (N.Network.net network.now).branches k }
    ensures ends { IfSome result (Within (N.Network.net network.now).nodes) }
    ensures few { (N.Network.net network.now).nodes ≤ 32 }
{
    network.branch(k)
}
