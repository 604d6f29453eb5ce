// Reads a deck from standard input, studies each of its doors, and prints the sheet.
#![tactic(auto)]

use sheet::study_sheet::sheet_of;
use std::fmt;
use std::io::Read;

// Stays beside the same six lines of `describe`: a function of both would take the text as a closure that may fail.
fn main(rt: HostRuntime) -> anyhow::Result<()> {
    let mut bytes = Vec::new(rt.alloc());
    rt.stdin().read_to_end(&mut bytes)?;
    // Want of memory for the text is told in the words in which this program always told it.
    let text = sheet_of(rt.alloc(), &bytes).map_err(|_| fmt::Error)?;
    print!(rt; "{text}")?;
    Ok(())
}
