// The doors of a deck, one after the other.
ghost use Rattle.std.specs.Prelude.{◌≡◌};
ghost use Rattle.std.specs.Iterator.{YieldsFirst, item_count};
ghost use Rattle.deck.specs.Words.{words};
ghost use Rattle.deck.specs.Cards.{card_on, cards};
ghost use Rattle.deck.specs.Laws.{DoorLaws};
ghost use Rattle.deck.specs.Doorways.{door_on, doors_in};
ghost use Rattle.deck.specs.Left.{doors_left};

use crate::card::{Card, card_of};
use crate::line::{Line, Lines};

/// Goes through the lines of a deck.
#[derive(Clone, Copy, Debug)]
pub struct Doors<'a> {
    lines: Lines<'a>,
}

// The door of a line that is a DOOR card.
fn door_of(line: Line<'_>) -> Option<u32>
    ensures { result ≡ door_on (card_on (words line.entry.bytes.now)) }
{
    let Ok(Card::Door { operands, .. }) = card_of(line) else {
        return None;
    };
    let [door] = operands.numbers::<1>()?;
    Some(door)
}

impl<'a> Doors<'a> {
    /// The doors of a deck, from the first on: those of its entries if it is accepted, so those of its plan.
    pub fn new(bytes: &'a [u8]) -> Doors<'a>
        ensures whole { doors_left result ≡ doors_in (cards bytes.now) }
        ensures laws { DoorLaws bytes.now }
    {
        Doors {
            lines: Lines::new(bytes),
        }
    }
}

impl<'a> Iterator for Doors<'a> {
    type Item = u32;

    ghost next_gives = { YieldsFirst doors_left };

    ghost remaining = { item_count doors_left };

    fn next(&mut self) -> Option<u32> {
        // Stays a loop: after self.lines.find_map(door_of) the proof does not close.
        while let Some(line) = self.lines.next() {
            if let Some(door) = door_of(line) {
                return Some(door);
            }
        }
        None
    }
}
