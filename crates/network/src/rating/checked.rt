// Making a rating from two numbers, and writing it.
ghost use Rattle.std.specs.Prelude.{◌≡◌, Some};
ghost use Rattle.network.specs.Ratings.{checked_rating, rating_text};

use crate::rating::Rating;
use std::fmt;

impl Rating {
    /// The rating of these numbers, where they are legal.
    // Stays two bare numbers: a caller's table holds them unchecked, and this is the check.
    pub fn new(mantissa: u32, exponent: u32) -> Option<Rating>
        ensures { result ≡ checked_rating mantissa exponent }
    {
        // Stays an early return: a closure for `then` would have to state the limits again.
        if mantissa > 1_000_000_000 || !(9..=18).contains(&exponent) {
            return None;
        }
        Some(Rating { mantissa, exponent })
    }
}

// Both numbers, as `100000000 9`.
impl fmt::Display for Rating {
    ghost output = { λ rating. Some (rating_text rating) };

    fn fmt<W: fmt::Write>(&self, f: &mut fmt::Formatter<W>) -> fmt::Result {
        write!(f, "{} {}", self.mantissa, self.exponent)
    }
}
