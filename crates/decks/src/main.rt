// Describes each deck of a folder, by the file names that it reads from standard input, one to a line.
#![tactic(auto)]

use sheet::description::describe;
use std::io::{BufRead, BufReader};
use std::rt::Files;
use std::{fmt, fs};

// Stays beside study_file of plans: that one hands a study from file to file, and this has none.
fn describe_file(rt: &(impl Files + Print + AllocGlobal), name: &str) -> anyhow::Result<()> {
    let bytes = fs::read(rt, name)?;
    // Want of memory for the text is told in the words in which this program always told it.
    let text = describe(rt.alloc(), &bytes).map_err(|_| fmt::Error)?;
    print!(rt; "FILE {name}\n{text}")?;
    Ok(())
}

fn main(rt: HostRuntime) -> anyhow::Result<()> {
    BufReader::new(rt.alloc(), rt.stdin())?
        .lines(rt.alloc())
        .try_for_each(|name| describe_file(&rt, name?.as_str()))
}
