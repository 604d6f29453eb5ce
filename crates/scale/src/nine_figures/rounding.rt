// Bringing figures / 10^exponent to a number of nine figures.
ghost use Rattle.std.specs.Prelude.{◌≡◌, ◌+◌, ◌*◌, ◌^◌, ◌<◌, ◌≤◌, ◌⊎◌};
ghost use Rattle.scale.specs.Fractions.{decimal, ◌≤ᶠ◌, ◌=ᶠ◌};
ghost use Rattle.scale.specs.FractionOrder.{◌<ᶠ◌};
ghost use Rattle.scale.specs.NineFigures.{nought, unit, floor, ceiling};

use crate::nine_figures::Decimal;
use crate::powers::PowerOfTen;

// The least and the first past the greatest number of nine figures.
const LEAST_FIGURES: u64 = 100_000_000;

const PAST_FIGURES: u64 = 1_000_000_000;

// The exponent of 1, and the last exponent.
const EXPONENT_OF_ONE: u32 = 8;

const LAST_EXPONENT: u32 = 60;

pub(crate) fn nought() -> Decimal
    ensures { result ≡ nought }
{
    Decimal {
        figures: 0,
        exponent: 9,
    }
}

pub(crate) fn unit() -> Decimal
    ensures { result ≡ unit }
{
    Decimal {
        figures: LEAST_FIGURES,
        exponent: EXPONENT_OF_ONE,
    }
}

// The largest number that is not above a fraction, and the smallest that is not below it; 1 of a fraction past 1.
#[derive(Clone, Copy)]
pub(crate) struct Enclosed {
    pub(crate) down: Decimal,
    pub(crate) up: Decimal,
}

impl Enclosed {
    // Of a fraction that is a number itself.
    pub(crate) fn exactly(x: Decimal) -> Enclosed
        ensures down { result.down ≡ x }
        ensures up { result.up ≡ x }
    {
        Enclosed { down: x, up: x }
    }
}

// The first nine figures of a fraction below 1, rounded down, and rounded up to the next where anything is cut off.
#[derive(Clone, Copy)]
struct FirstNine {
    down: u64,
    up: u64,
    exponent: u32,
    ghost nine: { (100000000 ≤ down) × (down < 1000000000) },
    ghost next: { (down ≤ up) × (up ≤ down + 1) },
    ghost below_one: { 8 < exponent },
}

impl FirstNine {
    // Of figures / 10^exponent, where the first figure is that of 10^first.
    #[inline(always)]
    fn of(figures: u64, first: u32, exponent: u32) -> FirstNine
        requires at_first { (10 ^ first ≤ figures) × (figures < 10 * 10 ^ first) }
        requires below_one { (first < 20) × (first < exponent) × (exponent ≤ 100) }
        ensures not_above { decimal result.down result.exponent ≤ᶠ decimal figures exponent }
        ensures last { decimal figures exponent <ᶠ decimal (result.down + 1) result.exponent }
        ensures up { (result.up ≡ result.down) × (decimal figures exponent =ᶠ decimal result.down result.exponent) ⊎ (result.up ≡ result.down + 1) × (decimal result.down result.exponent <ᶠ decimal figures exponent) }
    {
        if first < EXPONENT_OF_ONE {
            let missing = PowerOfTen {
                exponent: EXPONENT_OF_ONE - first,
            };
            let grown = figures * missing.value();
            return FirstNine {
                down: grown,
                up: grown,
                exponent: exponent + missing.exponent,
            };
        }
        let surplus = PowerOfTen {
            exponent: first - EXPONENT_OF_ONE,
        };
        FirstNine {
            down: surplus.divide_down(figures),
            up: surplus.divide_up(figures),
            exponent: exponent - surplus.exponent,
        }
    }

    // The smallest number that is not below the figures rounded up.
    #[inline(always)]
    fn number_above(self) -> Decimal
        ensures { result ≡ ceiling (decimal self.up self.exponent) }
    {
        if self.exponent > LAST_EXPONENT {
            return Decimal {
                figures: LEAST_FIGURES,
                exponent: LAST_EXPONENT,
            };
        }
        if self.up == PAST_FIGURES {
            return Decimal {
                figures: LEAST_FIGURES,
                exponent: self.exponent - 1,
            };
        }
        Decimal {
            figures: self.up,
            exponent: self.exponent,
        }
    }

    // The largest number that is not above the figures rounded down.
    #[inline(always)]
    fn number_below(self) -> Decimal
        ensures { result ≡ floor (decimal self.down self.exponent) }
    {
        if self.exponent > LAST_EXPONENT {
            return nought();
        }
        Decimal {
            figures: self.down,
            exponent: self.exponent,
        }
    }
}

// The numbers next to figures / 10^exponent.
#[inline(always)]
pub(crate) fn enclose(figures: u64, exponent: u32) -> Enclosed
    requires { exponent ≤ 100 }
    ensures down { result.down ≡ floor (decimal figures exponent) }
    ensures up { result.up ≡ ceiling (decimal figures exponent) }
{
    if figures == 0 {
        return Enclosed::exactly(nought());
    }
    let first = figures.ilog10();
    if first >= exponent {
        return Enclosed::exactly(unit());
    }
    let nine = FirstNine::of(figures, first, exponent);
    Enclosed {
        down: nine.number_below(),
        up: nine.number_above(),
    }
}
