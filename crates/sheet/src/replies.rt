// What a place of a run holds, by the kind of its answer.
ghost use Rattle.std.specs.Prelude.{◌≡◌};
ghost use Rattle.sheet.specs.Answers.{aimed_in, made_in, low_in, fine_in};

use crate::door_calls::Place;
use chance::bounds::Bounds;
use engine::call::Answer;
use engine::progress::Progress;
use refusals::study_fault::StudyFault;
use scale::billionths::Billionth;
use scale::nine_figures::Decimal;

// Why the aim was refused, if it was.
// Stays a function for each kind: each names another variant, and as methods of Answer they would be the same four.
pub(crate) fn aimed_in(place: &Place) -> Result<(), StudyFault>
    ensures { result ≡ aimed_in place.now.answer }
{
    match place.answer {
        Some(Answer::Aim(result)) => result,
        _ => Ok(()),
    }
}

// How far an advance came.
pub(crate) fn made_in(place: &Place) -> Option<Progress>
    ensures { result ≡ made_in place.now.answer }
{
    match place.answer {
        Some(Answer::Advance(Ok(made))) => Some(made),
        _ => None,
    }
}

// The bounds in billionths.
pub(crate) fn low_in(place: &Place) -> Option<Bounds<Billionth>>
    ensures { result ≡ low_in place.now.answer }
{
    match place.answer {
        Some(Answer::FirstBounds(Ok(bounds))) => Some(bounds),
        _ => None,
    }
}

// The bounds in nine figures.
pub(crate) fn fine_in(place: &Place) -> Option<Bounds<Decimal>>
    ensures { result ≡ fine_in place.now.answer }
{
    match place.answer {
        Some(Answer::SecondBounds(Ok(bounds))) => Some(bounds),
        _ => None,
    }
}
