// One line after another.
ghost use Rattle.std.specs.Prelude.{◌≡◌, drop};
ghost use Rattle.deck.specs.Left.{NextLine, lines_left};
ghost use Rattle.std.specs.Iterator.{item_count};

use crate::line::{Line, Lines};
use crate::words::length_before;

// All bytes but the first.
fn tail(bytes: &[u8]) -> &[u8]
    ensures { result.now ≡ drop 1 bytes.now }
{
    match bytes {
        [] => bytes,
        [_, rest @ ..] => rest,
    }
}

impl<'a> Lines<'a> {
    pub(crate) fn new(bytes: &'a [u8]) -> Lines<'a>
        ensures first { result.number ≡ 1 }
        ensures whole { result.rest.now ≡ bytes.now }
    {
        Lines {
            number: 1,
            rest: bytes,
        }
    }
}

impl<'a> Iterator for Lines<'a> {
    type Item = Line<'a>;

    ghost next_gives = { NextLine };

    ghost remaining = { item_count lines_left };

    fn next(&mut self) -> Option<Line<'a>> {
        if self.rest.is_empty() {
            return None;
        }
        let number = self.number;
        let (bytes, after) = self.rest.split_at(length_before(self.rest, b'\n'));
        *self = Lines {
            number: number + 1,
            rest: tail(after),
        };
        Some(Line { number, bytes })
    }
}
