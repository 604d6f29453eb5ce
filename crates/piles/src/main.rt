// Piles of networks, told branch by branch. Each line of standard input is a case: the nodes and branches of a first and a
// second list, the node at which they are joined, the branch of the joint that is out, and the branch that is sure.
#![tactic(auto)]

ghost use Rattle.std.specs.Prelude.{◌≡◌, ◌<◌, ◌≤◌, max, min, map, [], is_ok, if◌then◌else◌};
ghost use Rattle.std.specs.List.{range_with_len};
ghost use Rattle.network.specs.Meaning.{empty_net, list_rated};
ghost use Rattle.network.specs.Questions.{list_asked};
ghost use Rattle.piles.specs.Rows.{row_of};

use anyhow::Context;
use arrayvec::ArrayVec;
use layers::joint::Joint;
use layers::mark::{Out, Sure};
use network::branch::{Condition, TableRow};
use network::list::List;
use network::ring::Ring;
use network::traits::RatedNetwork;
use refusals::layer::Refusal;
use refusals::network_fault::NetworkFault;
use sheet::network_text::NetworkText;
use std::io::{BufRead, BufReader};
use std::str::{FromStr, Split};

const PLACES: usize = 70;

// Row k lies between nodes k and 7 k + 3, counted round.
fn row(nodes: u32, k: u32, mantissa: u32, exponent: u32) -> TableRow
    requires { (0 < nodes) × ((k < 70) × (mantissa ≤ 1000000)) }
    ensures { result ≡ row_of nodes k mantissa exponent }
{
    TableRow {
        from: k % nodes,
        to: (7 * k + 3) % nodes,
        mantissa: mantissa + k,
        exponent,
        condition: Condition::Able,
    }
}

fn tell_refusal(rt: &impl Print, what: &str, fault: NetworkFault) -> anyhow::Result<()> {
    let Refusal { number, place, .. } = fault.into();
    println!(rt; "{what} REFUSED {number} PLACE {place}")?;
    Ok(())
}

// The list of these rows; where they are refused, the empty network that it was at first.
fn listed<'a>(nodes: u32, rows: &'a [TableRow]) -> List<'a>
    ensures { ⟦<List<'a> as RatedNetwork>⟧.rated result ≡ (if is_ok (list_asked nodes rows.now) then list_rated nodes rows.now else record { plain = empty_net; ratings = [] }) }
{
    let mut list = List::new();
    // refused, it stays as it was; `tell_list` tells why
    let _ = list.fill(nodes, rows);
    list
}

// Why these rows are refused, where they are. It has a list of its own: `listed` hands out the list, and no fault.
fn tell_list(rt: &impl Print, nodes: u32, rows: &[TableRow]) -> anyhow::Result<()> {
    List::new()
        .fill(nodes, rows)
        .or_else(|fault| tell_refusal(rt, "LIST", fault))
}

fn number(words: &mut Split<'_, char>) -> anyhow::Result<u32> {
    let word = words.next().context("a case has seven numbers")?;
    Ok(word.parse::<u32>()?)
}

// The nodes and branches of one list.
#[derive(Clone, Copy)]
struct Size {
    nodes: u32,
    branches: u32,
}

impl Size {
    fn read(words: &mut Split<'_, char>) -> anyhow::Result<Size> {
        let nodes = number(words)?;
        let branches = number(words)?;
        Ok(Size { nodes, branches })
    }

    // The rows of the list, but no more than a table has places.
    // Stays a loop: to collect into an `ArrayVec` may be refused.
    fn rows(self, mantissa: u32, exponent: u32) -> ArrayVec<TableRow, PLACES>
        requires { mantissa ≤ 1000000 }
        ensures { result.items ≡ map (λ k. row_of (max self.nodes 1) k mantissa exponent) (range_with_len 0 (min self.branches 70)) }
    {
        let round = self.nodes.max(1);
        let mut rows = ArrayVec::new();
        for k in 0..self.branches.min(PLACES as u32) {
            rows.push(row(round, k, mantissa, exponent));
        }
        rows
    }
}

// Two lists, the node at which they are joined, the branch of the joint that is out, and the branch that is sure.
#[derive(Clone, Copy)]
struct Case {
    first: Size,
    second: Size,
    node: u32,
    out: u32,
    sure: u32,
}

impl FromStr for Case {
    type Err = anyhow::Error;

    fn from_str(line: &str) -> Result<Case, anyhow::Error> {
        let mut words = line.split(' ');
        Ok(Case {
            first: Size::read(&mut words)?,
            second: Size::read(&mut words)?,
            node: number(&mut words)?,
            out: number(&mut words)?,
            sure: number(&mut words)?,
        })
    }
}

impl Case {
    fn tell_pile<P: RatedNetwork + Drop, Q: RatedNetwork + Drop>(
        self,
        rt: &impl Print,
        first: P,
        second: Q,
    ) -> anyhow::Result<()> {
        let joint = Joint::at(first, second, self.node);
        let network = &Sure::over(Out::over(joint, self.out), self.sure);
        print!(rt; "{}", NetworkText { network, head: 0 })?;
        Ok(())
    }

    // A ring of the first list's numbers and the second list's branches, joined to the second list.
    fn tell_ring<Q: RatedNetwork + Drop>(self, rt: &impl Print, second: Q) -> anyhow::Result<()> {
        match Ring::new(self.first.nodes, self.first.branches, self.second.branches) {
            Ok(ring) => self.tell_pile(rt, ring, second),
            Err(fault) => tell_refusal(rt, "RING", fault),
        }
    }

    // The two lists joined; then the ring.
    fn tell(self, rt: &impl Print) -> anyhow::Result<()> {
        let first_rows = self.first.rows(1000, 9);
        let second_rows = self.second.rows(2000, 18);
        tell_list(rt, self.first.nodes, &first_rows)?;
        tell_list(rt, self.second.nodes, &second_rows)?;
        let first = listed(self.first.nodes, &first_rows);
        let second = listed(self.second.nodes, &second_rows);
        self.tell_pile(rt, &first, &second)?;
        self.tell_ring(rt, &second)
    }
}

fn tell_case(rt: &impl Print, line: &str) -> anyhow::Result<()> {
    println!(rt; "CASE {line}")?;
    line.parse::<Case>()?.tell(rt)
}

fn main(rt: HostRuntime) -> anyhow::Result<()> {
    BufReader::new(rt.alloc(), rt.stdin())?
        .lines(rt.alloc())
        .try_for_each(|line| tell_case(&rt, line?.as_str()))
}
