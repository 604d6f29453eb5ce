// Sheets whose searches advance in portions: each line of standard input names the file of a deck and the budget of each
// advance.
#![tactic(auto)]

use anyhow::{Context, anyhow, bail};
use deck::doors::Doors;
use engine::study::Study;
use network::branch::TableRow;
use network::traits::RatedNetwork;
use search::status::Status;
use sheet::door_text::RefusedDoor;
use sheet::reading::read_network;
use sheet::study_text::StudyText;
use std::fs;
use std::io::{BufRead, BufReader};
use std::rt::Files;

// A network and its head, to be studied in advances of one budget.
#[derive(Drop)]
struct Portions<'a, N> {
    network: &'a N,
    head: u32,
    budget: u32,
}

impl<'a, N: RatedNetwork> Portions<'a, N> {
    // Advances until the search is finished or full.
    fn advance_all(&self, study: &mut Study) -> anyhow::Result<()> {
        // more than the tries that 512 rows of 32 nodes allow
        for _ in 0..20_000 {
            let progress = study
                .advance(self.network, self.budget)
                .map_err(|_| anyhow!("an advance was refused"))?;
            if progress.status != Status::More {
                return Ok(());
            }
        }
        bail!("the search goes on")
    }

    fn tell_door(&self, rt: &impl Print, study: &mut Study, door: u32) -> anyhow::Result<()> {
        match study.aim(self.network, door) {
            Ok(()) => {
                self.advance_all(study)?;
                let found = StudyText {
                    study,
                    network: self.network,
                    door,
                };
                print!(rt; "{found}")?;
            }
            Err(fault) => print!(rt; "{}", RefusedDoor { door, fault })?,
        }
        Ok(())
    }

    fn tell_doors(&self, rt: &impl Print, doors: Doors<'_>) -> anyhow::Result<()> {
        let mut study = Study::new();
        study
            .set_up(self.network, self.head)
            .map_err(|_| anyhow!("the head is refused"))?;
        for door in doors {
            self.tell_door(rt, &mut study, door)?;
        }
        Ok(())
    }
}

fn tell_case(rt: &(impl Files + Print + AllocGlobal), line: &str) -> anyhow::Result<()> {
    let (name, budget) = line
        .split_once(' ')
        .context("a case names a file and a budget")?;
    println!(rt; "FILE {name} BUDGET {budget}")?;
    let budget = budget.parse::<u32>()?;
    let bytes = fs::read(rt, name)?;
    let mut table = [TableRow::default(); 64];
    // Stays in both programs that read the network of a deck: the list borrows the table, which a function could not hand out.
    let (network, head) = read_network(&bytes, &mut table)
        .ok()
        .context("the deck is refused")?;
    let portions = Portions {
        network: &network,
        head,
        budget,
    };
    portions.tell_doors(rt, Doors::new(&bytes))
}

fn main(rt: HostRuntime) -> anyhow::Result<()> {
    BufReader::new(rt.alloc(), rt.stdin())?
        .lines(rt.alloc())
        .try_for_each(|line| tell_case(&rt, line?.as_str()))
}
