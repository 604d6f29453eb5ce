// Reading a whole deck into a caller's table.
ghost use Rattle.std.specs.Prelude.{◌≡◌, ◌^◌, ◌<◌, ◌≤◌, [], length};
ghost use Rattle.deck.specs.Cards.{cards};
ghost use Rattle.deck.specs.Decks.{read_cards, read_bytes, deck_read, table_after, bytes_asked};
ghost use Rattle.deck.specs.Refusing.{deck_questions, first_no_on, refusal_on};
ghost use Rattle.deck.specs.Laws.{DeckLaws};
ghost use Rattle.deck.specs.Drafts.{ReadTo, TakesLine};

use crate::card::card_of;
use crate::draft::Draft;
use crate::line::{Line, Lines};
use network::branch::TableRow;
use refusals::deck_fault::{DeckFault, DeckRefusal};

/// What an accepted deck answers; `door_line` is the line of its first DOOR card, counted from 1.
#[derive(Clone, Copy, Debug, PartialEq, Eq)]
pub struct Deck {
    pub nodes: u32,
    pub head: u32,
    pub branches: u32,
    pub door_line: u32,
}

// One line more in the draft.
fn read_line(draft: &mut Draft, line: Line<'_>) -> Result<(), DeckFault>
    requires { line.number < 2 ^ 32 }
    ensures { TakesLine draft.old line.entry.number line.entry.bytes.now result draft.new }
{
    draft.put(card_of(line)?)
}

// The deck of all lines, and the draft that holds its rows.
fn read_lines(bytes: &[u8]) -> Result<(Deck, Draft), DeckRefusal>
    requires short { length bytes.now ≤ 65536 }
    ensures { ReadTo (read_cards [] (cards bytes.now)) result }
{
    let mut draft = Draft::new();
    let mut lines = Lines::new(bytes);
    // Stays a while let: after a for over lines.by_ref() the proof no longer knows where the lines ended.
    while let Some(line) = lines.next() {
        read_line(&mut draft, line).map_err(|fault| fault.at_line(line.number as u32))?;
    }
    let deck = draft
        .deck()
        .map_err(|fault| fault.at_line(lines.number as u32))?;
    Ok((deck, draft))
}

// Has the table 64 places, and is the deck short enough and ended by a line's end?
fn check_bytes(bytes: &[u8], places: usize) -> Result<(), DeckFault>
    ensures { result ≡ bytes_asked places bytes.now }
{
    if places < 64 {
        return Err(DeckFault::Table);
    }
    match bytes {
        [.., b'\n'] if bytes.len() <= 65_536 => Ok(()),
        _ => Err(DeckFault::Bytes),
    }
}

/// Reads a deck. Its branches are written into the table once the deck is accepted, and later places stay; a refusal leaves
/// the table as it was, and is that of the first question answered no. The deck of a plan gives the plan back, nothing else
/// is accepted, and decks with the same cards are answered alike. Refused with 14 to 19, and with 1 to 5 from below, at
/// the line of the card, or at line 0 for 14 and 15.
pub fn read_deck(bytes: &[u8], table: &mut [TableRow]) -> Result<Deck, DeckRefusal>
    ensures answer { result ≡ deck_read (read_bytes (length table.old) bytes.now) }
    ensures filled { table.new ≡ table_after (read_bytes (length table.old) bytes.now) table.old }
    ensures refusal { refusal_on result ≡ first_no_on (deck_questions (length table.old) bytes.now) }
    ensures laws { DeckLaws bytes.now table.old result table.new }
{
    check_bytes(bytes, table.len()).map_err(|fault| fault.at_line(0))?;
    let (deck, draft) = read_lines(bytes)?;
    draft.fill(table);
    Ok(deck)
}
