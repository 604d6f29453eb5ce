// The sheet of one door: how its search stands, its cuts and its bounds, or why it is refused.
ghost use Rattle.std.specs.Prelude.{◌≡◌, ℕ, ◌++◌, Some, length, string_bytes, OnOk, MatchResult};
ghost use Rattle.engine.specs.Runs.{calls_of};
ghost use Rattle.engine.specs.Studies.{state_of};
ghost use Rattle.sheet.specs.Answers.{run_calls, answers_text};
ghost use Rattle.sheet.specs.Sheets.{refused_line, cut_lines, door_text, TwoAdvancesEnd};

use crate::answers_text::AnswersText;
use crate::door_calls::{Place, calls_for};
use crate::replies::aimed_in;
use engine::carry::carry_out;
use engine::study::Study;
use network::traits::RatedNetwork;
use refusals::layer::Refusal;
use refusals::study_fault::StudyFault;
use scale::billionths::Billionths;
use scale::nine_figures::NineFigures;
use std::alloc::AllocError;
use std::fmt;

/// A door that is refused.
#[derive(Clone, Copy)]
pub struct RefusedDoor {
    pub door: u32,
    pub fault: StudyFault,
}

impl fmt::Display for RefusedDoor {
    ghost output = { λ refused. Some (refused_line refused.door refused.fault) };

    fn fmt<W: fmt::Write>(&self, f: &mut fmt::Formatter<W>) -> fmt::Result {
        let door = self.door;
        let Refusal { number, .. } = self.fault.into();
        writeln!(f, "DOOR {door} REFUSED {number}")
    }
}

// Makes the calls of a door, and answers why the head or the door is refused, if it is.
fn run_door<N: RatedNetwork>(
    study: &mut Study,
    network: &N,
    head: u32,
    places: &mut [Place; 5],
) -> Result<(), StudyFault>
    ensures { (door : ℕ) → calls_of places.old ≡ run_calls door → MatchResult result
        (λ _. answers_text door places.new (cut_lines (N.Network.net network.now) (state_of study.new) (length (state_of study.new).search.rows)) ≡ door_text (N.RatedNetwork.rated network.now) head door)
        (λ fault. refused_line door fault ≡ door_text (N.RatedNetwork.rated network.now) head door) }
{
    carry_out::<Billionths, NineFigures, N>(study, network, head, places, &mut [])?;
    aimed_in(&places[0])
}

/// The sheet of a door, or its refusal, by one run of calls, after which the study shows its rows. The study may have held
/// anything before. Where memory fails, nothing is said of the text, since `write!` on a `String` promises nothing there.
// Stays five parameters: text, study and network are each lent for this call alone, and the door is one of many.
// Stays a function over a String: it changes the study, which a Display may not.
pub fn write_door<N: RatedNetwork>(
    text: &mut String,
    study: &mut Study,
    network: &N,
    head: u32,
    door: u32,
) -> Result<(), AllocError>
    ensures { OnOk result (string_bytes text.new ≡ string_bytes text.old ++ door_text (N.RatedNetwork.rated network.now) head door) }
{
    let mut places = calls_for(door);
    match run_door(study, network, head, &mut places) {
        Ok(()) => {
            let answers = AnswersText {
                door,
                places: &places,
                study,
                network,
            };
            write!(text, "{answers}")
        }
        Err(fault) => write!(text, "{}", RefusedDoor { door, fault }),
    }
}

/// On every network the calls that are made for a door bring its search to an end: it is finished, or full.
pub fn two_advances_end()
    ensures { TwoAdvancesEnd }
{}
