// A network in words: a headline, and a line for each branch.
ghost use Rattle.std.specs.Prelude.{◌≡◌, length, Some};
ghost use Rattle.std.specs.Fmt.{WritesOnOk};
ghost use Rattle.std.specs.List.{slice_get};
ghost use Rattle.sheet.specs.Descriptions.{line_at, lines_below, network_text};

use network::branch::Branch;
use network::branches::branches_of;
use network::traits::RatedNetwork;
use std::fmt;

/// A network with its head: its counts, and then each branch with its rating.
#[derive(Clone, Copy)]
pub struct NetworkText<'a, N> {
    pub network: &'a N,
    pub head: u32,
}

impl<'a, N: RatedNetwork> fmt::Display for NetworkText<'a, N> {
    ghost output = { λ t. Some (network_text (record { plain = N.Network.net t.network.now; ratings = (N.RatedNetwork.rated t.network.now).ratings }) t.head) };

    fn fmt<W: fmt::Write>(&self, f: &mut fmt::Formatter<W>) -> fmt::Result {
        let nodes = self.network.nodes();
        let head = self.head;
        let branches = self.network.branches();
        writeln!(f, "NODES {nodes} HEAD {head} BRANCHES {branches}")?;
        write_branches(f, self.network)
    }
}

// The line of branch k, where it has a rating.
fn write_branch<W: fmt::Write, N: RatedNetwork>(
    f: &mut fmt::Formatter<W>,
    network: &N,
    k: u32,
    branch: Branch,
) -> fmt::Result
    ensures { WritesOnOk
        W.write_str_gives
        f.old
        result
        (line_at k (Some branch) (slice_get (N.RatedNetwork.rated network.now).ratings k))
        f.new }
{
    match network.rating(k) {
        Some(rating) => writeln!(f, "BRANCH {k} {branch} {rating}"),
        None => Ok(()),
    }
}

fn write_branches<W: fmt::Write, N: RatedNetwork>(
    f: &mut fmt::Formatter<W>,
    network: &N,
) -> fmt::Result
    ensures { WritesOnOk
        W.write_str_gives
        f.old
        result
        (lines_below (N.Network.net network.now).branches (N.RatedNetwork.rated network.now).ratings (length (N.Network.net network.now).branches))
        f.new }
{
    for (k, branch) in branches_of(network) {
        write_branch(f, network, k, branch)?;
    }
    Ok(())
}
