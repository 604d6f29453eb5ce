// Reads a deck from standard input, and prints why it is refused, or the network and the doors that it tells.
#![tactic(auto)]

use sheet::description::describe;
use std::fmt;
use std::io::Read;

fn main(rt: HostRuntime) -> anyhow::Result<()> {
    let mut bytes = Vec::new(rt.alloc());
    rt.stdin().read_to_end(&mut bytes)?;
    // Want of memory for the text is told in the words in which this program always told it.
    let text = describe(rt.alloc(), &bytes).map_err(|_| fmt::Error)?;
    print!(rt; "{text}")?;
    Ok(())
}
