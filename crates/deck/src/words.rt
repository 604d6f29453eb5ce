// A word's number, and the bytes before a space or a line's end.
ghost use Rattle.std.specs.Prelude.{◌≡◌};
ghost use Rattle.deck.specs.Words.{length_before, number_of};

// The number that a word of 1 to 10 decimal digits writes, where it fits 32 bits.
// Stays a loop: str::from_utf8 and parse take three times the instructions and more.
pub(crate) fn number(word: &[u8]) -> Option<u32>
    ensures { result ≡ number_of word.now }
{
    if !(1..=10).contains(&word.len()) {
        return None;
    }
    let mut value: u64 = 0;
    for digit in word {
        if !digit.is_ascii_digit() {
            return None;
        }
        value = value * 10 + u64::from(*digit - b'0');
    }
    u32::try_from(value).ok()
}

// How many bytes stand before the first that equals b.
pub(crate) fn length_before(bytes: &[u8], b: u8) -> usize
    ensures { result ≡ length_before b bytes.now }
{
    bytes.iter().take_while(|c| **c != b).count()
}
