// Powers of ten.
ghost use Rattle.std.specs.Prelude.{◌≡◌, ℕ, ◌/◌, ◌^◌, ◌<◌, ◌≤◌};
ghost use Rattle.scale.specs.Quotients.{ceil_div};

use network::rating::Rating;

// Stays a table: pow multiplies in a loop.
const POWERS: [u64; 19] = [
    1,
    10,
    100,
    1_000,
    10_000,
    100_000,
    1_000_000,
    10_000_000,
    100_000_000,
    1_000_000_000,
    10_000_000_000,
    100_000_000_000,
    1_000_000_000_000,
    10_000_000_000_000,
    100_000_000_000_000,
    1_000_000_000_000_000,
    10_000_000_000_000_000,
    100_000_000_000_000_000,
    1_000_000_000_000_000_000,
];

// n / d, rounded up.
// Stays by hand: for a constant d this takes fewer steps than div_ceil.
#[inline(always)]
fn quotient_up(n: u64, d: u64) -> u64
    requires { 0 < d }
    ensures { result ≡ ceil_div n d }
{
    let down = n / d;
    if down * d < n { down + 1 } else { down }
}

// A power of ten that a u64 holds.
#[derive(Clone, Copy)]
pub(crate) struct PowerOfTen {
    pub(crate) exponent: u32,
    ghost small: { exponent ≤ 18 },
}

impl PowerOfTen {
    // The power under a rating.
    pub(crate) fn under(by: Rating) -> PowerOfTen
        ensures { result.exponent ≡ by.exponent }
    {
        PowerOfTen {
            exponent: by.exponent,
        }
    }

    pub(crate) fn value(self) -> u64
        ensures power { result ≡ 10 ^ self.exponent }
        ensures positive { 0 < result }
    {
        POWERS[self.exponent as usize]
    }

    // n over this power by `quotient`.
    // Stays a match: a constant divisor compiles to a multiplication.
    #[inline(always)]
    fn divide<F: FnOnce(u64, u64) -> u64>(self, n: u64, quotient: F) -> u64
        requires { (d : ℕ) → 0 < d → F.pre quotient n d }
        ensures { F.post quotient n (10 ^ self.exponent) result }
    {
        match self.exponent {
            0 => quotient(n, 1),
            1 => quotient(n, 10),
            2 => quotient(n, 100),
            3 => quotient(n, 1_000),
            4 => quotient(n, 10_000),
            5 => quotient(n, 100_000),
            6 => quotient(n, 1_000_000),
            7 => quotient(n, 10_000_000),
            8 => quotient(n, 100_000_000),
            9 => quotient(n, 1_000_000_000),
            10 => quotient(n, 10_000_000_000),
            11 => quotient(n, 100_000_000_000),
            12 => quotient(n, 1_000_000_000_000),
            13 => quotient(n, 10_000_000_000_000),
            14 => quotient(n, 100_000_000_000_000),
            15 => quotient(n, 1_000_000_000_000_000),
            16 => quotient(n, 10_000_000_000_000_000),
            17 => quotient(n, 100_000_000_000_000_000),
            _ => quotient(n, 1_000_000_000_000_000_000),
        }
    }

    // n over this power, rounded down.
    #[inline(always)]
    pub(crate) fn divide_down(self, n: u64) -> u64
        ensures { result ≡ n / 10 ^ self.exponent }
    {
        self.divide(n, |n, d| n / d)
    }

    // n over this power, rounded up.
    #[inline(always)]
    pub(crate) fn divide_up(self, n: u64) -> u64
        ensures { result ≡ ceil_div n (10 ^ self.exponent) }
    {
        self.divide(n, quotient_up)
    }
}
