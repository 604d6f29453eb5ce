// Worked cases of the two scales, and what both have in common.
ghost use Rattle.scale.specs.Arithmetic.{OneNumberForEachValue};
ghost use Rattle.scale.specs.Billionths.{billionths};
ghost use Rattle.scale.specs.NineFigures.{nine_figures};
ghost use Rattle.scale.specs.Worked.{ProductsAndDifferenceByHand};

use crate::Scale;
use crate::billionths::{Billionth, Billionths};
use crate::nine_figures::{Decimal, NineFigures};
use crate::worked_cases::WorkedCases;
use network::rating::Rating;

/// What the two scales answer in the worked cases.
pub fn work_cases() -> WorkedCases
    ensures { ProductsAndDifferenceByHand result }
{
    let tenth = Rating {
        mantissa: 100_000_000,
        exponent: 9,
    };
    let billionth = Billionth { units: 1 };
    let fine_billionth = Decimal {
        figures: 100_000_000,
        exponent: 17,
    };
    let tiny = Decimal {
        figures: 100_000_000,
        exponent: 28,
    };
    WorkedCases {
        down: Billionths::times_down(billionth, tenth),
        up: Billionths::times_up(billionth, tenth),
        fine_down: NineFigures::times_down(fine_billionth, tenth),
        fine_up: NineFigures::times_up(fine_billionth, tenth),
        less: NineFigures::less_down(NineFigures::one(), tiny),
    }
}

/// In both scales equal values are equal numbers.
pub fn equal_values_are_equal_numbers()
    ensures billionths { OneNumberForEachValue billionths }
    ensures figures { OneNumberForEachValue nine_figures }
{}
