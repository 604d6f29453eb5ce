// The branches of a network, one after another.
ghost use Rattle.std.specs.Prelude.{◌≡◌};
ghost use Rattle.std.specs.List.{enumerate_from};
ghost use Rattle.std.specs.Iterator.{YieldsFirst, item_count};

use crate::branch::Branch;
use crate::traits::Network;
use std::marker::Model;

/// Gives each branch that is left with its number, rising. A contract sees the list of these.
#[derive(Drop)]
pub struct Branches<'a, N: Network> {
    network: &'a N,
    next: u32,
}

impl<'a, N: Network> Model for Branches<'a, N> {
    ghost use Rattle.std.specs.Prelude.{ℕ, List, drop};
    ghost use Rattle.std.specs.List.{enumerate_from};
    ghost use Rattle.network.specs.declared.branch.Branch.{Branch};

    ghost Value = { List (ℕ × Branch) };

    ghost view = { λ s. enumerate_from s.next (drop s.next (N.Network.net s.network.now).branches) };
}

impl<'a, N: Network> Iterator for Branches<'a, N> {
    type Item = (u32, Branch);

    ghost next_gives = { YieldsFirst (λ rest. rest) };

    ghost remaining = { item_count (λ rest. rest) };

    fn next(&mut self) -> Option<(u32, Branch)> {
        let k = self.next;
        let b = self.network.branch(k)?;
        self.next = k + 1;
        Some((k, b))
    }
}

pub fn branches_of<N: Network>(network: &N) -> Branches<'_, N>
    ensures { result ≡ enumerate_from 0 (N.Network.net network.now).branches }
{
    Branches { network, next: 0 }
}
