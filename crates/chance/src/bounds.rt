// The bounds of a list of rows, each by its branch set.
ghost use Rattle.std.specs.Prelude.{◌≡◌, map, if◌then◌else◌, bit_or};
ghost use Rattle.std.specs.Option.{option_map_or};
ghost use Rattle.chance.specs.Bounds.{larger, added_up, product_up, low as low_of, high as high_of};
ghost use Rattle.chance.specs.Rows.{branch_sets};
ghost use Rattle.chance.specs.Largest.{FirstLargest};
ghost use Rattle.chance.specs.Bracket.{Brackets, Narrowing};

use crate::ratings::Ratings;
use network::cut::Cut;
use network::traits::RatedNetwork;
use scale::Scale;
use sets::set::BranchSet;

/// A low and a high bound, in one scale.
#[derive(Clone, Copy)]
pub struct Bounds<T> {
    pub low: T,
    pub high: T,
}

// Adds to the sum the up product of two rows united.
fn add_pair<S: Scale>(ratings: &Ratings, first: BranchSet, second: BranchSet, sum: S::Num) -> S::Num
    ensures { result ≡ S.Scale.arithmetic.sum_up sum (product_up S.Scale.arithmetic ratings.now (bit_or first second)) }
{
    S::sum_up(sum, ratings.product_up::<S>(first | second))
}

// Adds to the sum the up products of a row united with each row before it.
fn add_pairs<S: Scale>(ratings: &Ratings, earlier: &[Cut], set: BranchSet, sum: S::Num) -> S::Num
    ensures { result ≡ added_up S.Scale.arithmetic ratings.now sum (map (λ row. bit_or row set) (branch_sets earlier.now)) }
{
    let mut all = sum;
    for row in earlier {
        all = add_pair::<S>(ratings, row.branches, set, all);
    }
    all
}

// The best difference, once the next is seen: the best so far stays unless the next is strictly larger.
fn better<S: Scale>(best: Option<S::Num>, next: S::Num) -> S::Num
    ensures { result ≡ option_map_or (λ found. larger S.Scale.arithmetic found next) best next }
{
    best.map_or(
        next,
        |found| if S::at_most(next, found) { found } else { next },
    )
}

// The sum of all rows once the search is finished, and 1 before.
fn high_bound<S: Scale>(finished: bool, sum: S::Num) -> S::Num
    ensures { result ≡ (if finished then sum else S.Scale.arithmetic.one) }
{
    if finished { sum } else { S::one() }
}

// The bounds of the rows, in listing order, from the ratings by branch number.
fn bounds_from<S: Scale>(ratings: &Ratings, rows: &[Cut], finished: bool) -> Bounds<S::Num>
    ensures low { result.low ≡ low_of S.Scale.arithmetic ratings.now (branch_sets rows.now) }
    ensures high { result.high ≡ high_of S.Scale.arithmetic ratings.now finished (branch_sets rows.now) }
{
    // S1 and S2 of the rows so far, the best difference, and the sum of up products
    // Stays a loop with an index: a rule of the project, j bounds the rows before, with which a row is paired.
    let mut s1 = S::zero();
    let mut s2 = S::zero();
    let mut low = None;
    let mut sum = S::zero();
    for (j, row) in rows.iter().enumerate() {
        s1 = S::sum_down(s1, ratings.product_down::<S>(row.branches));
        s2 = add_pairs::<S>(ratings, &rows[..j], row.branches, s2);
        low = Some(better::<S>(low, S::less_down(s1, s2)));
        sum = S::sum_up(sum, ratings.product_up::<S>(row.branches));
    }
    Bounds {
        low: low.unwrap_or(S::zero()),
        high: high_bound::<S>(finished, sum),
    }
}

/// The bounds of the rows, in listing order; the high bound is 1 until the search is finished.
// Stays a bool beside the rows: the status of a search is a type of the search, on which this crate does not stand.
pub fn bounds_of<S: Scale, N: RatedNetwork>(
    network: &N,
    rows: &[Cut],
    finished: bool,
) -> Bounds<S::Num>
    ensures low { result.low ≡ low_of S.Scale.arithmetic (N.RatedNetwork.rated network.now).ratings (branch_sets rows.now) }
    ensures high { result.high ≡ high_of S.Scale.arithmetic (N.RatedNetwork.rated network.now).ratings finished (branch_sets rows.now) }
    ensures first { FirstLargest S.Scale.arithmetic (N.RatedNetwork.rated network.now).ratings (branch_sets rows.now) result.low }
    ensures bracket { Brackets S.Scale.arithmetic (N.RatedNetwork.rated network.now) (branch_sets rows.now) finished result.low result.high }
{
    bounds_from::<S>(&Ratings::of(network), rows, finished)
}

/// More rows only narrow the bounds, in every scale with numbers of type T.
pub fn bounds_narrow<T>()
    ensures { Narrowing T }
{}
