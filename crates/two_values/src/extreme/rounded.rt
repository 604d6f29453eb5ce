// The arithmetic of 0 and 1: what lies between goes down to 0 or up to 1.
ghost use Rattle.two_values.specs.TwoValues.{two_values};
ghost use Rattle.two_values.specs.Extremes;

use crate::extreme::{Extreme, TwoValues};
use network::rating::Rating;
use scale::Scale;

impl Scale for TwoValues {
    type Num = Extreme;

    ghost arithmetic = { two_values };

    ghost rounded = { Extremes.rounded };

    fn zero() -> Extreme {
        Extreme::Never
    }

    fn one() -> Extreme {
        Extreme::Surely
    }

    fn times_down(x: Extreme, by: Rating) -> Extreme {
        if u64::from(by.mantissa) >= 10u64.pow(by.exponent) {
            return x;
        }
        Extreme::Never
    }

    fn times_up(x: Extreme, by: Rating) -> Extreme {
        if by.mantissa > 0 {
            return x;
        }
        Extreme::Never
    }

    fn sum_down(x: Extreme, y: Extreme) -> Extreme {
        x.max(y)
    }

    fn sum_up(x: Extreme, y: Extreme) -> Extreme {
        x.max(y)
    }

    fn less_down(x: Extreme, y: Extreme) -> Extreme {
        match y {
            Extreme::Never => x,
            Extreme::Surely => Extreme::Never,
        }
    }

    fn at_most(x: Extreme, y: Extreme) -> bool {
        x <= y
    }
}
