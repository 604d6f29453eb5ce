// The sheets of a folder of decks, by the file names that are read from standard input, one to a line. One study serves them all,
// so each plan is studied after all the others before it.
#![tactic(auto)]

use engine::study::Study;
use sheet::study_sheet::write_sheet;
use std::io::{BufRead, BufReader};
use std::rt::Files;
use std::{fmt, fs};

fn study_file(
    rt: &(impl Files + Print + AllocGlobal),
    study: &mut Study,
    name: &str,
) -> anyhow::Result<()> {
    let bytes = fs::read(rt, name)?;
    let mut text = String::new(rt.alloc());
    // Want of memory for the text is told in the words in which this program always told it.
    write_sheet(&mut text, study, &bytes).map_err(|_| fmt::Error)?;
    print!(rt; "FILE {name}\n{text}")?;
    Ok(())
}

fn main(rt: HostRuntime) -> anyhow::Result<()> {
    let mut study = Study::new();
    BufReader::new(rt.alloc(), rt.stdin())?
        .lines(rt.alloc())
        .try_for_each(|name| study_file(&rt, &mut study, name?.as_str()))
}
