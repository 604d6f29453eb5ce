// The scale of nine figures.
ghost use Rattle.scale.specs.Form.{Form};

pub mod rounded;
mod rounding;

/// The chance figures / 10^exponent: 0 with the exponent 9, 1 with the exponent 8, or nine figures with an exponent from 9 to 60.
#[derive(Clone, Copy, Debug, PartialEq, Eq)]
pub struct Decimal {
    pub figures: u64,
    pub exponent: u32,
    ghost form: { Form figures exponent },
}

pub struct NineFigures;
