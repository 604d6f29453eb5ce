// The chance mantissa / 10^exponent that a branch fails.
ghost use Rattle.std.specs.Prelude.{◌≡◌, ◌≤◌};

pub mod checked;

/// Legal by its type: the mantissa is at most 10^9, and the exponent from 9 to 18.
#[derive(Clone, Copy, Debug, PartialEq, Eq)]
pub struct Rating {
    pub mantissa: u32,
    pub exponent: u32,
    ghost small: { mantissa ≤ 1000000000 },
    ghost least: { 9 ≤ exponent },
    ghost most: { exponent ≤ 18 },
}

// The rating of a branch that never fails.
// Stays by hand: no `Default` is derived where there are ghost fields, and the exponent 0 is in no rating.
impl Default for Rating {
    ghost is_default = { λ r. (r.mantissa ≡ 0) × (r.exponent ≡ 9) };

    fn default() -> Rating {
        Rating {
            mantissa: 0,
            exponent: 9,
        }
    }
}
