// Scales: sets of chances from 0 to 1 that a computer can hold, with arithmetic rounded down or up.
#![tactic(auto)]

ghost use Rattle.std.specs.Prelude.{◌≡◌};
ghost use Rattle.scale.specs.Arithmetic.{Arithmetic, Rounded};

use network::rating::Rating;

pub mod billionths;
pub mod nine_figures;
mod powers;
pub mod worked;
pub mod worked_cases;

/// A set of chances and its arithmetic. No operation refuses anything.
pub trait Scale {
    /// The scale's own kind of number.
    type Num: Copy;

    // The value of each number, and what each operation answers.
    ghost arithmetic: { Arithmetic Self.Num };

    fn zero() -> Self::Num
        ensures { result ≡ arithmetic.zero };

    fn one() -> Self::Num
        ensures { result ≡ arithmetic.one };

    fn times_down(x: Self::Num, by: Rating) -> Self::Num
        ensures { result ≡ arithmetic.times_down x by };

    fn times_up(x: Self::Num, by: Rating) -> Self::Num
        ensures { result ≡ arithmetic.times_up x by };

    fn sum_down(x: Self::Num, y: Self::Num) -> Self::Num
        ensures { result ≡ arithmetic.sum_down x y };

    fn sum_up(x: Self::Num, y: Self::Num) -> Self::Num
        ensures { result ≡ arithmetic.sum_up x y };

    /// `x` less `y`, rounded down; 0 where `y` is above `x`.
    fn less_down(x: Self::Num, y: Self::Num) -> Self::Num
        ensures { result ≡ arithmetic.less_down x y };

    fn at_most(x: Self::Num, y: Self::Num) -> bool
        ensures { result ≡ arithmetic.at_most x y };

    // Each answer has the value that is described, for all numbers and all ratings.
    ghost rounded: { Rounded arithmetic };
}
