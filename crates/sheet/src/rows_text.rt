// The rows of a study in words.
ghost use Rattle.std.specs.Prelude.{length};
ghost use Rattle.std.specs.Fmt.{WritesOnOk};
ghost use Rattle.engine.specs.Studies.{state_of};
ghost use Rattle.sheet.specs.Sheets.{cut_lines};

use crate::lines::write_row;
use engine::study::Study;
use network::traits::Network;
use std::fmt;

// The CUT line of each row.
pub(crate) fn write_rows<W: fmt::Write, N: Network>(
    f: &mut fmt::Formatter<W>,
    study: &Study,
    network: &N,
) -> fmt::Result
    ensures { WritesOnOk W.write_str_gives f.old result (cut_lines (N.Network.net network.now) (state_of study.now) (length (state_of study.now).search.rows)) f.new }
{
    // Stays a loop over row numbers: `show` takes the number, and refuses it where there is no such row.
    for k in 0..study.rows() {
        write_row(f, study.show(network, k).ok())?;
    }
    Ok(())
}
