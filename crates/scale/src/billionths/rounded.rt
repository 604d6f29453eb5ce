// The arithmetic of billionths, and how they are printed.
ghost use Rattle.std.specs.Prelude.{◌≡◌, ◌+◌, ◌*◌, min, Some, decimal};
ghost use Rattle.scale.specs.Billionths.{billionths};
ghost use Rattle.scale.specs.BillionthLaws;

use crate::Scale;
use crate::billionths::{Billionth, Billionths};
use crate::powers::PowerOfTen;
use network::rating::Rating;
use std::fmt;

const ONE: u64 = 1_000_000_000;

// The exact units of a product, over the rating's power of ten.
fn exact_units(x: Billionth, by: Rating) -> u64
    ensures { result ≡ x.units * by.mantissa }
{
    x.units * u64::from(by.mantissa)
}

// A sum is exact, or held at 1.
fn held_sum(x: Billionth, y: Billionth) -> Billionth
    ensures { result.units ≡ min (x.units + y.units) 1000000000 }
{
    Billionth {
        units: (x.units + y.units).min(ONE),
    }
}

impl Scale for Billionths {
    type Num = Billionth;

    ghost arithmetic = { billionths };

    ghost rounded = { BillionthLaws.rounded };

    fn zero() -> Billionth {
        Billionth { units: 0 }
    }

    fn one() -> Billionth {
        Billionth { units: ONE }
    }

    fn times_down(x: Billionth, by: Rating) -> Billionth {
        Billionth {
            units: PowerOfTen::under(by).divide_down(exact_units(x, by)),
        }
    }

    fn times_up(x: Billionth, by: Rating) -> Billionth {
        Billionth {
            units: PowerOfTen::under(by).divide_up(exact_units(x, by)),
        }
    }

    fn sum_down(x: Billionth, y: Billionth) -> Billionth {
        held_sum(x, y)
    }

    fn sum_up(x: Billionth, y: Billionth) -> Billionth {
        held_sum(x, y)
    }

    fn less_down(x: Billionth, y: Billionth) -> Billionth {
        Billionth {
            units: x.units.saturating_sub(y.units),
        }
    }

    fn at_most(x: Billionth, y: Billionth) -> bool {
        x <= y
    }
}

// The units alone.
impl fmt::Display for Billionth {
    ghost output = { λ x. Some (decimal x.units) };

    fn fmt<W: fmt::Write>(&self, f: &mut fmt::Formatter<W>) -> fmt::Result {
        write!(f, "{}", self.units)
    }
}
