// The calls that are made for a door.
ghost use Rattle.std.specs.Prelude.{◌≡◌};
ghost use Rattle.engine.specs.Runs.{calls_of};
ghost use Rattle.sheet.specs.Answers.{run_calls};

use engine::call::{Asked, Call, WhichScale};
use scale::billionths::Billionth;
use scale::nine_figures::Decimal;

// A call of a door, with the place for its answer in both scales.
pub(crate) type Place = Asked<Billionth, Decimal>;

// An aim, two advances that suffice for any search, and the bounds in both scales.
pub(crate) fn calls_for(door: u32) -> [Place; 5]
    ensures { calls_of result ≡ run_calls door }
{
    [
        Asked::new(Call::Aim(door)),
        Asked::new(Call::Advance(10_000)),
        Asked::new(Call::Advance(10_000)),
        Asked::new(Call::Bounds(WhichScale::First)),
        Asked::new(Call::Bounds(WhichScale::Second)),
    ]
}
