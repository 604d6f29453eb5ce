// How a joint numbers the nodes of its second network.
ghost use Rattle.std.specs.Prelude.{◌≡◌, ◌≤◌, map};
ghost use Rattle.std.specs.List.{slice_get};
ghost use Rattle.layers.specs.Meaning.{moved_node, moved};

use network::branch::Branch;
use network::traits::{Network, branch_within};

// Node 0 becomes node `at` of the first network, and the others follow its `nodes` nodes.
#[derive(Clone, Copy)]
pub(crate) struct Renumbering {
    pub(crate) nodes: u32,
    pub(crate) at: u32,
    ghost few: { nodes ≤ 32 },
}

impl Renumbering {
    fn node(self, i: u32) -> u32
        requires { i ≤ 32 }
        ensures { result ≡ moved_node self.nodes self.at i }
    {
        if i == 0 {
            self.at
        } else {
            self.nodes + (i - 1)
        }
    }

    fn ends_moved(self, b: Branch) -> Branch
        requires { (b.from ≤ 32) × (b.to ≤ 32) }
        ensures { result ≡ moved self.nodes self.at b }
    {
        Branch {
            from: self.node(b.from),
            to: self.node(b.to),
            ..b
        }
    }

    // Branch k of the second network, as the joint numbers its ends.
    pub(crate) fn branch<Q: Network>(self, second: &Q, k: u32) -> Option<Branch>
        ensures { result ≡ slice_get (map (moved self.nodes self.at) (Q.Network.net second.now).branches) k }
    {
        branch_within(second, k).map(|b| self.ends_moved(b))
    }
}
