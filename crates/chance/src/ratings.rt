// The ratings of a network's branches, asked of it once, and their products.
ghost use Rattle.std.specs.Prelude.{◌≡◌, slice_get};
ghost use Rattle.chance.specs.Bounds.{product_down, product_up};

use arrayvec::ArrayVec;
use network::rating::Rating;
use network::traits::RatedNetwork;
use scale::Scale;
use sets::set::BranchSet;
use std::marker::Model;

// The ratings by branch number. A contract sees the list of these.
#[derive(Drop)]
pub(crate) struct Ratings {
    table: ArrayVec<Rating, 64>,
}

impl Model for Ratings {
    ghost use Rattle.std.specs.Prelude.{List};
    ghost use Rattle.network.specs.declared.rating.Rating.{Rating};

    ghost Value = { List Rating };

    ghost view = { λ ratings. ratings.table.items };
}

// The rating of a branch, by number; past the last there is none.
fn rating_of(ratings: &[Rating], branch: u32) -> Option<Rating>
    ensures { result ≡ slice_get ratings.now branch }
{
    ratings.get(branch as usize).copied()
}

impl Ratings {
    // Asks the network once for the rating of each branch.
    pub(crate) fn of<N: RatedNetwork>(network: &N) -> Ratings
        ensures { result ≡ (N.RatedNetwork.rated network.now).ratings }
    {
        let mut table = ArrayVec::new();
        // Stays a loop over numbers: `rating` takes the number of a branch, and has none to tell past the last.
        for branch in 0..64 {
            if let Some(rating) = network.rating(branch) {
                table.push(rating);
            }
        }
        Ratings { table }
    }

    // The product of a branch set, each step rounded down.
    // Stays a pair of short functions: the contract of a fold over any step is longer than both.
    pub(crate) fn product_down<S: Scale>(&self, set: BranchSet) -> S::Num
        ensures { result ≡ product_down S.Scale.arithmetic self.now set }
    {
        let ratings = self.table.as_slice();
        set.into_iter()
            .filter_map(|branch| rating_of(ratings, branch))
            .fold(S::one(), |low, rating| { S::times_down(low, rating) })
    }

    // The same, rounded up.
    pub(crate) fn product_up<S: Scale>(&self, set: BranchSet) -> S::Num
        ensures { result ≡ product_up S.Scale.arithmetic self.now set }
    {
        let ratings = self.table.as_slice();
        set.into_iter()
            .filter_map(|branch| rating_of(ratings, branch))
            .fold(S::one(), |high, rating| { S::times_up(high, rating) })
    }
}
