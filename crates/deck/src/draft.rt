// A deck as it is read, card by card.
ghost use Rattle.std.specs.Prelude.{◌≡◌, ◌^◌, ◌<◌, ◌≤◌, true, [], ◌++◌, List, length, drop};
ghost use Rattle.arrayvec.specs.ArrayVec.{array_vec_len};
ghost use Rattle.network.specs.Questions.{asked};
ghost use Rattle.refusals.specs.declared.deck_fault.DeckFault.TheVariants.{Turn};
ghost use Rattle.deck.specs.Cards.{nodes as nodes_word, branch as branch_word, door as door_word};
ghost use Rattle.deck.specs.Decks.{Entry, follows, plan_asked};
ghost use Rattle.deck.specs.Words.{tail_words};
ghost use Rattle.deck.specs.Left.{words_left};
ghost use Rattle.deck.specs.Drafts.{keyword_of, numbers_of, line_of, rank, Holds, Takes, TakesAnywhere, TakesMark, deck_held};

use crate::card::Card;
use crate::operands::Operands;
use crate::reader::Deck;
use arrayvec::ArrayVec;
use network::branch::{Condition, TableRow};
use network::questions::{check_branch_count, check_head, check_nodes, check_row};
use refusals::deck_fault::DeckFault;
use refusals::study_fault::StudyFault;

// What the last card was, in the order of a deck.
#[derive(Clone, Copy, Debug, PartialEq, Eq, PartialOrd, Ord)]
pub(crate) enum Section {
    Start,
    Nodes,
    Branches,
    Marks,
    Doors,
}

impl Section {
    // May a card of that section come next?
    fn check_turn(self, next: Section) -> Result<(), DeckFault>
        ensures { result ≡ asked (follows (rank self) (rank next)) Turn }
    {
        let in_turn = match self {
            Section::Start => next == Section::Nodes,
            Section::Nodes => next == Section::Branches,
            Section::Branches | Section::Marks | Section::Doors => self <= next,
        };
        if in_turn {
            Ok(())
        } else {
            Err(DeckFault::Turn)
        }
    }
}

// May there be a network of so many nodes, studied from this head?
fn check_plan(nodes: u32, head: u32) -> Result<(), StudyFault>
    ensures { result ≡ plan_asked nodes head }
{
    check_nodes(nodes)?;
    check_head(nodes, head)
}

// The cards taken so far: the rows of the branches with their marks, and the line of the first door.
// Stays plain numbers, 0 before the NODES card: as an Option they would be unwrapped at each branch, where the section shows them.
#[derive(Drop)]
pub(crate) struct Draft {
    section: Section,
    nodes: u32,
    head: u32,
    door: Option<u32>,
    rows: ArrayVec<TableRow, 64>,
}

impl Draft {
    pub(crate) fn new() -> Draft
        ensures { Holds result [] }
    {
        Draft {
            section: Section::Start,
            nodes: 0,
            head: 0,
            door: None,
            rows: ArrayVec::new(),
        }
    }

    // Stays in each put, the turn asked and the section set: the section of a card would be a match longer than these lines.
    fn put_nodes(&mut self, operands: Operands<'_>) -> Result<(), DeckFault>
        ensures { TakesAnywhere self.old nodes_word (words_left operands.entry) result self.new }
    {
        self.section.check_turn(Section::Nodes)?;
        let [nodes, head] = operands.numbers::<2>().ok_or(DeckFault::Numbers)?;
        check_plan(nodes, head)?;
        self.section = Section::Nodes;
        self.nodes = nodes;
        self.head = head;
        Ok(())
    }

    fn put_branch(&mut self, operands: Operands<'_>) -> Result<(), DeckFault>
        ensures { TakesAnywhere self.old branch_word (words_left operands.entry) result self.new }
    {
        self.section.check_turn(Section::Branches)?;
        let [from, to, mantissa, exponent] = operands.numbers::<4>().ok_or(DeckFault::Numbers)?;
        let row = TableRow {
            from,
            to,
            mantissa,
            exponent,
            condition: Condition::Able,
        };
        let count = self.rows.len();
        check_branch_count(count + 1)?;
        check_row(self.nodes, count as u32, &row)?;
        self.rows.push(row);
        self.section = Section::Branches;
        Ok(())
    }

    fn put_mark(&mut self, operands: Operands<'_>, condition: Condition) -> Result<(), DeckFault>
        ensures { TakesMark self.old condition (words_left operands.entry) result self.new }
    {
        self.section.check_turn(Section::Marks)?;
        let [k] = operands.numbers::<1>().ok_or(DeckFault::Numbers)?;
        let row = self.rows.get_mut(k as usize).ok_or(DeckFault::Mark)?;
        row.condition = condition;
        self.section = Section::Marks;
        Ok(())
    }

    fn put_door(&mut self, line: u32, operands: Operands<'_>) -> Result<(), DeckFault>
        ensures { Takes self.old door_word line (words_left operands.entry) result self.new }
    {
        self.section.check_turn(Section::Doors)?;
        let [_] = operands.numbers::<1>().ok_or(DeckFault::Numbers)?;
        self.door = self.door.or(Some(line));
        self.section = Section::Doors;
        Ok(())
    }

    // The next card of the deck.
    pub(crate) fn put(&mut self, card: Card<'_>) -> Result<(), DeckFault>
        requires { line_of card < 2 ^ 32 }
        ensures { Takes
            self.old
            (keyword_of card.entry)
            (line_of card.entry)
            (tail_words (numbers_of card.entry))
            result
            self.new }
    {
        match card {
            Card::Nodes { operands, .. } => self.put_nodes(operands),
            Card::Branch { operands, .. } => self.put_branch(operands),
            Card::Failed { operands, .. } => self.put_mark(operands, Condition::Failed),
            Card::Working { operands, .. } => self.put_mark(operands, Condition::Working),
            Card::Door { line, operands } => self.put_door(line as u32, operands),
        }
    }

    // The deck of these cards; it may not end before a door.
    pub(crate) fn deck(&self) -> Result<Deck, DeckFault>
        ensures { (es : List Entry) → Holds self.now es → result ≡ deck_held es }
    {
        Ok(Deck {
            nodes: self.nodes,
            head: self.head,
            branches: self.rows.len() as u32,
            door_line: self.door.ok_or(DeckFault::Turn)?,
        })
    }

    // Writes the rows into a table; its later places stay.
    pub(crate) fn fill(&self, table: &mut [TableRow])
        requires { array_vec_len self.now.rows ≤ length table.old }
        ensures { table.new ≡ self.now.rows.items ++ drop (array_vec_len self.now.rows) table.old }
    {
        table[..self.rows.len()].copy_from_slice(self.rows.as_slice());
    }
}
