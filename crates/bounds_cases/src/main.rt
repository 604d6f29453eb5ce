// Bounds of lists of branch sets, one list to a line of standard input: the file of a deck, OPEN or FINISHED, and the sets
// as numbers, bit k for branch k.
#![tactic(auto)]

use anyhow::Context;
use chance::bounds::{Bounds, bounds_of};
use network::branch::TableRow;
use network::cut::Cut;
use network::traits::RatedNetwork;
use scale::billionths::Billionths;
use scale::nine_figures::NineFigures;
use sets::set::{BranchSet, NodeSet};
use sheet::reading::read_network;
use std::alloc::Global;
use std::fs;
use std::io::{BufRead, BufReader};
use std::rt::Files;
use std::str::Split;

// What is said of a line without its first two words.
const CASE_FORM: &str = "a case names a file and a status";

// Stays a print for each scale: words and type differ, and the lines of the sheet are of answers, not of bare bounds.
fn tell_bounds<N: RatedNetwork>(
    rt: &impl Print,
    network: &N,
    cuts: &[Cut],
    finished: bool,
) -> anyhow::Result<()> {
    let Bounds { low, high } = bounds_of::<Billionths, N>(network, cuts, finished);
    println!(rt; "LOW {low} HIGH {high}")?;
    let Bounds { low, high } = bounds_of::<NineFigures, N>(network, cuts, finished);
    println!(rt; "FINE {low} {high}")?;
    Ok(())
}

// A cut by its branch set alone.
fn cut_in(word: &str) -> anyhow::Result<Cut> {
    Ok(Cut {
        branches: BranchSet::from(word.parse::<u64>()?),
        nodes: NodeSet::new(),
    })
}

fn cuts_in(heap: Global, words: Split<'_, char>) -> anyhow::Result<Vec<Cut>> {
    words.map(cut_in).try_collect(heap)
}

fn tell_case(rt: &(impl Files + Print + AllocGlobal), line: &str) -> anyhow::Result<()> {
    println!(rt; "{line}")?;
    let mut words = line.split(' ');
    let file = words.next().context(CASE_FORM)?;
    let status = words.next().context(CASE_FORM)?;
    let bytes = fs::read(rt, file)?;
    let mut table = [TableRow::default(); 64];
    // Stays in both programs that read the network of a deck: the list borrows the table, which a function could not hand out.
    let (network, _) = read_network(&bytes, &mut table)
        .ok()
        .context("the deck is refused")?;
    let cuts = cuts_in(rt.alloc(), words)?;
    tell_bounds(rt, &network, &cuts, status == "FINISHED")
}

fn main(rt: HostRuntime) -> anyhow::Result<()> {
    BufReader::new(rt.alloc(), rt.stdin())?
        .lines(rt.alloc())
        .try_for_each(|line| tell_case(&rt, line?.as_str()))
}
