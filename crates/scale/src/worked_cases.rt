// The answers of the worked cases.
use crate::billionths::Billionth;
use crate::nine_figures::Decimal;

#[derive(Clone, Copy)]
pub struct WorkedCases {
    /// 1 / 10^9 times 0.1, down and up in both scales.
    pub down: Billionth,
    pub up: Billionth,
    pub fine_down: Decimal,
    pub fine_up: Decimal,
    /// 1 less 10^-20.
    pub less: Decimal,
}
