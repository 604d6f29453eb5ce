// The words after a line's first, one after another, and their numbers.
ghost use Rattle.std.specs.Prelude.{◌≡◌};
ghost use Rattle.std.specs.Iterator.{YieldsFirstRef, item_count};
ghost use Rattle.deck.specs.Words.{numbers_in};
ghost use Rattle.deck.specs.Left.{words_left};

use crate::operands::Operands;
use crate::words::{length_before, number};

impl<'a> Iterator for Operands<'a> {
    type Item = &'a [u8];

    ghost next_gives = { YieldsFirstRef words_left };

    ghost remaining = { item_count words_left };

    fn next(&mut self) -> Option<&'a [u8]> {
        let [b' ', words @ ..] = self.text else {
            return None;
        };
        let (word, text) = words.split_at(length_before(words, b' '));
        *self = Operands { text };
        Some(word)
    }
}

impl<'a> Operands<'a> {
    // The numbers of exactly N words.
    pub(crate) fn numbers<const N: usize>(self) -> Option<[u32; N]>
        ensures { result ≡ numbers_in N (words_left self.entry) }
    {
        let mut words = self;
        let mut all = [0; N];
        for place in all.iter_mut() {
            *place = number(words.next()?)?;
        }
        words.next().is_none().then_some(all)
    }
}
