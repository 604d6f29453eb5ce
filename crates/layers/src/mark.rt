// Layers that tell one branch of the network below as failed or as working.
ghost use Rattle.std.specs.Prelude.{◌≡◌, ◌==◌, if◌then◌else◌, length};
ghost use Rattle.std.proofs.Common.{ap};
ghost use Rattle.std.specs.List.{slice_get};
ghost use Rattle.layers.specs.Laws.{Marked, MarkedBranch};
ghost use Rattle.layers.specs.Meaning.{told, retold, retold_rated};
ghost use Rattle.layers.specs.Legality.{legal-retold, legal-retold_rated};
ghost use Rattle.network.specs.declared.branch.Condition.{Condition};
ghost use Rattle.network.specs.declared.branch.Condition.TheVariants.{Failed, Working};

use network::branch::{Branch, Condition};
use network::rating::Rating;
use network::traits::{Network, RatedNetwork};
use std::marker::PhantomData;

/// What a layer tells of its branch.
pub trait Mark: Drop {
    ghost CONDITION: { Condition };

    const CONDITION: Condition;
}

#[derive(Drop)]
pub struct AsFailed;

impl Mark for AsFailed {
    ghost CONDITION = { Failed };

    const CONDITION: Condition = Condition::Failed;
}

#[derive(Drop)]
pub struct AsWorking;

impl Mark for AsWorking {
    ghost CONDITION = { Working };

    const CONDITION: Condition = Condition::Working;
}

/// The network below with one branch told as the mark says; the network below if it has no branch of that number.
#[derive(Drop)]
pub struct Told<N, M> {
    below: N,
    branch: u32,
    mark: PhantomData<M>,
}

/// The network below with branch k told as failed.
pub type Out<N> = Told<N, AsFailed>;

/// The network below with branch k told as working.
pub type Sure<N> = Told<N, AsWorking>;

impl<N: Network, M: Mark> Told<N, M> {
    pub fn over(below: N, branch: u32) -> Told<N, M>
        ensures made { (result.below ≡ below) × (result.branch ≡ branch) }
        ensures law { Marked M.CONDITION branch (N.Network.net below) (⟦<Told<N, M> as Network>⟧.net result) }
    {
        Told {
            below,
            branch,
            mark: PhantomData,
        }
    }

    // Branch k as the layer tells it.
    fn tell(&self, k: u32, b: Branch) -> Branch
        ensures { result ≡ (if k == self.now.branch then told M.CONDITION b else b) }
    {
        if k == self.branch {
            Branch {
                condition: M::CONDITION,
                ..b
            }
        } else {
            b
        }
    }
}

impl<N: Network, M: Mark> Network for Told<N, M> {
    ghost net = { λ s. retold M.CONDITION s.branch (N.Network.net s.below) };

    ghost legal = { λ s. legal-retold M.CONDITION s.branch (N.Network.net s.below) (N.Network.legal s.below) };

    fn nodes(&self) -> u32
        ensures { result ≡ (N.Network.net self.now.below).nodes }
    {
        self.below.nodes()
    }

    fn branches(&self) -> u32
        ensures meaning { result ≡ length (⟦<Told<N, M> as Network>⟧.net self.now).branches }
        ensures law { result ≡ length (N.Network.net self.now.below).branches }
    {
        self.below.branches()
    }

    fn branch(&self, k: u32) -> Option<Branch>
        ensures meaning { result ≡ slice_get (⟦<Told<N, M> as Network>⟧.net self.now).branches k }
        ensures law { MarkedBranch M.CONDITION self.now.branch k (slice_get (N.Network.net self.now.below).branches k) result }
    {
        self.below.branch(k).map(|b| self.tell(k, b))
    }
}

impl<N: RatedNetwork, M: Mark> RatedNetwork for Told<N, M> {
    ghost rated = { λ s. retold_rated M.CONDITION s.branch (N.RatedNetwork.rated s.below) };

    ghost legal = { λ s. legal-retold_rated M.CONDITION s.branch (N.RatedNetwork.rated s.below) (N.RatedNetwork.legal s.below) };

    ghost same = { λ s. ap (retold M.CONDITION s.branch) (N.RatedNetwork.same s.below) };

    fn rating(&self, k: u32) -> Option<Rating>
        ensures answer { result ≡ slice_get (N.RatedNetwork.rated self.now.below).ratings k }
        ensures same { (⟦<Told<N, M> as RatedNetwork>⟧.rated self.now).plain ≡ ⟦<Told<N, M> as Network>⟧.net self.now }
    {
        self.below.rating(k)
    }
}
