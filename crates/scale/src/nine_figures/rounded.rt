// The arithmetic of nine figures, and how they are printed.
ghost use Rattle.std.specs.Prelude.{◌≡◌, ◌+◌, ◌-◌, ◌*◌, ◌^◌, ◌<◌, ◌≤◌, ◌⊎◌, ◌++◌, Some, codes, decimal};
ghost use Rattle.scale.specs.Fractions.{◌+ᶠ◌, ◌×ᶠ◌};
ghost use Rattle.scale.specs.Arithmetic.{chance};
ghost use Rattle.scale.specs.NineFigures.{worth, floor, ceiling, nine_figures};
ghost use Rattle.scale.specs.NineLaws;

use crate::Scale;
use crate::nine_figures::rounding::{Enclosed, enclose, nought, unit};
use crate::nine_figures::{Decimal, NineFigures};
use crate::powers::PowerOfTen;
use network::rating::Rating;
use std::fmt;

// Past this gap between two exponents a sum changes no figure of the larger number.
const SUM_GAP: u32 = 9;

// Past this gap a difference takes less than a tenth of a unit of the ninth figure.
const LESS_GAP: u32 = 10;

// The numbers next to the product.
#[inline(always)]
fn multiply(x: Decimal, by: Rating) -> Enclosed
    ensures down { result.down ≡ floor (worth x ×ᶠ chance by) }
    ensures up { result.up ≡ ceiling (worth x ×ᶠ chance by) }
{
    enclose(x.figures * u64::from(by.mantissa), x.exponent + by.exponent)
}

// The figures of a number, over 10 to a larger exponent.
fn figures_over(x: Decimal, exponent: u32) -> u64
    requires { (x.exponent ≤ exponent) × (exponent ≤ x.exponent + 10) }
    ensures { result ≡ x.figures * 10 ^ (exponent - x.exponent) }
{
    let gap = PowerOfTen {
        exponent: exponent - x.exponent,
    };
    x.figures * gap.value()
}

// Both numbers, with 0 second, and else the smaller exponent first.
fn ordered(x: Decimal, y: Decimal) -> (Decimal, Decimal)
    ensures both { (result.0 ≡ x) × (result.1 ≡ y) ⊎ (result.0 ≡ y) × (result.1 ≡ x) }
    ensures order { 0 < result.1.figures → (100000000 ≤ result.0.figures) × (result.0.exponent ≤ result.1.exponent) }
{
    if x.figures == 0 || y.figures > 0 && y.exponent < x.exponent {
        (y, x)
    } else {
        (x, y)
    }
}

// The numbers next to the sum of two numbers in order.
#[inline(always)]
fn add_ordered(x: Decimal, y: Decimal) -> Enclosed
    requires { 0 < y.figures → (100000000 ≤ x.figures) × (x.exponent ≤ y.exponent) }
    ensures down { result.down ≡ floor (worth x +ᶠ worth y) }
    ensures up { result.up ≡ ceiling (worth x +ᶠ worth y) }
{
    if y.figures == 0 {
        return Enclosed::exactly(x);
    }
    if y.exponent - x.exponent > SUM_GAP {
        return Enclosed {
            down: x,
            up: enclose(x.figures + 1, x.exponent).up,
        };
    }
    enclose(figures_over(x, y.exponent) + y.figures, y.exponent)
}

// The numbers next to the sum.
#[inline(always)]
fn add(x: Decimal, y: Decimal) -> Enclosed
    ensures down { result.down ≡ floor (worth x +ᶠ worth y) }
    ensures up { result.up ≡ ceiling (worth x +ᶠ worth y) }
{
    let (first, second) = ordered(x, y);
    add_ordered(first, second)
}

impl Scale for NineFigures {
    type Num = Decimal;

    ghost arithmetic = { nine_figures };

    ghost rounded = { NineLaws.rounded };

    fn zero() -> Decimal {
        nought()
    }

    fn one() -> Decimal {
        unit()
    }

    fn times_down(x: Decimal, by: Rating) -> Decimal {
        multiply(x, by).down
    }

    fn times_up(x: Decimal, by: Rating) -> Decimal {
        multiply(x, by).up
    }

    fn sum_down(x: Decimal, y: Decimal) -> Decimal {
        add(x, y).down
    }

    fn sum_up(x: Decimal, y: Decimal) -> Decimal {
        add(x, y).up
    }

    // Stays a test for 0 in each operation: 0 has an exponent of its own, and each operation answers it in its own way.
    fn less_down(x: Decimal, y: Decimal) -> Decimal {
        if x.figures == 0 || y.figures == 0 {
            return x;
        }
        if x.exponent > y.exponent {
            return nought();
        }
        if y.exponent - x.exponent > LESS_GAP {
            return enclose(x.figures * 10 - 1, x.exponent + 1).down;
        }
        let left = figures_over(x, y.exponent).saturating_sub(y.figures);
        enclose(left, y.exponent).down
    }

    fn at_most(x: Decimal, y: Decimal) -> bool {
        if x.figures == 0 {
            return true;
        }
        if y.figures == 0 {
            return false;
        }
        if x.exponent == y.exponent {
            return x.figures <= y.figures;
        }
        x.exponent > y.exponent
    }
}

// The figures and the exponent.
impl fmt::Display for Decimal {
    ghost output = { λ x. Some (decimal x.figures ++ (codes " " ++ decimal x.exponent)) };

    fn fmt<W: fmt::Write>(&self, f: &mut fmt::Formatter<W>) -> fmt::Result {
        write!(f, "{} {}", self.figures, self.exponent)
    }
}
