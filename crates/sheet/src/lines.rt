// The lines of a door's sheet.
ghost use Rattle.std.specs.Prelude.{◌≡◌};
ghost use Rattle.std.specs.Fmt.{WritesOnOk, DisplaysOnOk};
ghost use Rattle.sheet.specs.Sheets.{progress_line, row_line, low_line, fine_line};
ghost use Rattle.sheet.specs.Shown.{bounds_output};

use chance::bounds::Bounds;
use cut_line::line_of;
use scale::billionths::Billionth;
use scale::nine_figures::Decimal;
use search::status::Status;
use std::fmt;

// How a search stands.
pub(crate) fn write_progress<W: fmt::Write>(
    f: &mut fmt::Formatter<W>,
    door: u32,
    tries: u64,
    rows: usize,
    status: Status,
) -> fmt::Result
    ensures { WritesOnOk W.write_str_gives f.old result (progress_line door tries rows status) f.new }
{
    writeln!(f, "DOOR {door} CUTS {rows} TRIES {tries} {status}")
}

// The CUT line of a row.
pub(crate) fn write_row<W: fmt::Write>(
    f: &mut fmt::Formatter<W>,
    row: Option<(u64, u32)>,
) -> fmt::Result
    ensures { WritesOnOk W.write_str_gives f.old result (row_line row) f.new }
{
    match row {
        Some((branches, nodes)) => write!(f, "{}", line_of(branches, nodes)),
        None => Ok(()),
    }
}

// The bounds in one scale, each after its word.
fn write_bounds<T: fmt::Display + Copy, W: fmt::Write>(
    f: &mut fmt::Formatter<W>,
    low_word: &str,
    high_word: &str,
    bounds: Option<Bounds<T>>,
) -> fmt::Result
    ensures { DisplaysOnOk
        W.write_str_gives
        f.old
        result
        (bounds_output T.output low_word.now high_word.now bounds)
        f.new }
{
    match bounds {
        Some(Bounds { low, high }) => writeln!(f, "{low_word}{low}{high_word}{high}"),
        None => Ok(()),
    }
}

// The bounds in billionths.
pub(crate) fn write_low<W: fmt::Write>(
    f: &mut fmt::Formatter<W>,
    bounds: Option<Bounds<Billionth>>,
) -> fmt::Result
    ensures { WritesOnOk W.write_str_gives f.old result (low_line bounds) f.new }
{
    write_bounds(f, "LOW ", " HIGH ", bounds)
}

// The bounds in nine figures.
pub(crate) fn write_fine<W: fmt::Write>(
    f: &mut fmt::Formatter<W>,
    bounds: Option<Bounds<Decimal>>,
) -> fmt::Result
    ensures { WritesOnOk W.write_str_gives f.old result (fine_line bounds) f.new }
{
    write_bounds(f, "FINE ", " ", bounds)
}
