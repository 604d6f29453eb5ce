// A door in words, by the answers to its run: how its search stands, its cuts, and its bounds in both scales.
ghost use Rattle.std.specs.Prelude.{Some, length};
ghost use Rattle.std.specs.Fmt.{WritesOnOk};
ghost use Rattle.engine.specs.Studies.{state_of};
ghost use Rattle.sheet.specs.Sheets.{cut_lines};
ghost use Rattle.sheet.specs.Answers.{advances_line, answers_text};

use crate::door_calls::Place;
use crate::lines::{write_fine, write_low, write_progress};
use crate::replies::{fine_in, low_in, made_in};
use crate::rows_text::write_rows;
use engine::progress::Progress;
use engine::study::Study;
use network::traits::Network;
use std::fmt;

// What the run of a door answered whose aim was accepted, and the study that it left, which shows the rows.
#[derive(Clone, Copy)]
pub(crate) struct AnswersText<'a, N> {
    pub(crate) door: u32,
    pub(crate) places: &'a [Place; 5],
    pub(crate) study: &'a Study,
    pub(crate) network: &'a N,
}

impl<'a, N: Network> fmt::Display for AnswersText<'a, N> {
    ghost output = { λ t. Some (answers_text t.door t.places.now (cut_lines (N.net t.network.now) (state_of t.study.now) (length (state_of t.study.now).search.rows))) };

    fn fmt<W: fmt::Write>(&self, f: &mut fmt::Formatter<W>) -> fmt::Result {
        // the places of calls_for: the aim, two advances and two bounds
        let [_, first, second, low, fine] = self.places;
        write_advances(f, self.door, made_in(first), made_in(second))?;
        write_rows(f, self.study, self.network)?;
        write_low(f, low_in(low))?;
        write_fine(f, fine_in(fine))
    }
}

// How the search stands after two advances.
fn write_advances<W: fmt::Write>(
    f: &mut fmt::Formatter<W>,
    door: u32,
    first: Option<Progress>,
    second: Option<Progress>,
) -> fmt::Result
    ensures { WritesOnOk W.write_str_gives f.old result (advances_line door first second) f.new }
{
    match (first, second) {
        (Some(first), Some(second)) => {
            let tries = u64::from(first.tries) + u64::from(second.tries);
            write_progress(f, door, tries, second.rows, second.status)
        }
        _ => Ok(()),
    }
}
