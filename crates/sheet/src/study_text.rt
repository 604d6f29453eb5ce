// A study in words: how its search stands, its cuts, and its bounds in both scales.
ghost use Rattle.std.specs.Prelude.{Some};
ghost use Rattle.std.specs.Fmt.{WritesOnOk};
ghost use Rattle.engine.specs.Studies.{state_of, standing_answer};
ghost use Rattle.sheet.specs.Sheets.{standing_line, study_text};

use crate::lines::{write_fine, write_low, write_progress};
use crate::rows_text::write_rows;
use engine::progress::Progress;
use engine::study::Study;
use network::traits::{Network, RatedNetwork};
use scale::billionths::Billionths;
use scale::nine_figures::NineFigures;
use std::fmt;

/// What a study on this network has found of its door. Where no aim was accepted, it writes nothing.
#[derive(Clone, Copy)]
pub struct StudyText<'a, N> {
    pub study: &'a Study,
    pub network: &'a N,
    pub door: u32,
}

impl<'a, N: RatedNetwork> fmt::Display for StudyText<'a, N> {
    ghost output = { λ t. Some (study_text (record { plain = N.Network.net t.network.now; ratings = (N.RatedNetwork.rated t.network.now).ratings }) t.door (state_of t.study.now)) };

    fn fmt<W: fmt::Write>(&self, f: &mut fmt::Formatter<W>) -> fmt::Result {
        write_standing(f, self.study, self.network, self.door)?;
        write_rows(f, self.study, self.network)?;
        let low = self.study.bounds::<Billionths, N>(self.network);
        write_low(f, low.ok())?;
        let fine = self.study.bounds::<NineFigures, N>(self.network);
        write_fine(f, fine.ok())
    }
}

fn write_standing<W: fmt::Write, N: Network>(
    f: &mut fmt::Formatter<W>,
    study: &Study,
    network: &N,
    door: u32,
) -> fmt::Result
    ensures { WritesOnOk W.write_str_gives f.old result (standing_line door (standing_answer (N.Network.net network.now) (state_of study.now))) f.new }
{
    match study.standing(network) {
        Ok(
            Progress {
                rows,
                tries,
                status,
            },
        ) => write_progress(f, door, u64::from(tries), rows, status),
        Err(_) => Ok(()),
    }
}
