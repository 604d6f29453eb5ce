// The lines of a deck.
ghost use Rattle.std.specs.Prelude.{◌≡◌, ◌+◌, ◌^◌, ◌<◌, length};

pub(crate) mod next_line;

// A line without its byte 10, and its number, counted from 1.
#[derive(Clone, Copy, Debug)]
pub(crate) struct Line<'a> {
    pub number: usize,
    pub bytes: &'a [u8],
}

// The lines of a deck, from the one of this number on.
#[derive(Clone, Copy, Debug)]
pub(crate) struct Lines<'a> {
    pub number: usize,
    rest: &'a [u8],
    ghost few: { number + length rest.now < 2 ^ 64 },
}
