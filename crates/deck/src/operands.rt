// What follows the first word of a line.
ghost use Rattle.std.specs.Prelude.{◌≡◌, true};
ghost use Rattle.deck.specs.Words.{ends_word};

pub(crate) mod words_left;

// Nothing, or a space before each word.
#[derive(Clone, Copy, Debug)]
pub(crate) struct Operands<'a> {
    pub text: &'a [u8],
    ghost at_word_end: { ends_word text.now ≡ true },
}
