// The card of a line, by its first word; its numbers stay in the bytes of the deck.
ghost use Rattle.std.specs.Prelude.{◌≡◌, MatchResult};
ghost use Rattle.refusals.specs.declared.deck_fault.DeckFault.TheVariants.{Word};
ghost use Rattle.deck.specs.Cards.{failed, working, door};
ghost use Rattle.deck.specs.Words.{ends_word};
ghost use Rattle.deck.specs.Drafts.{Lacks, Titled, Untitled};

use crate::line::Line;
use crate::operands::Operands;
use refusals::deck_fault::DeckFault;

// Each case holds the line's number and what follows its first word.
#[derive(Clone, Copy, Debug)]
pub(crate) enum Card<'a> {
    Nodes { line: usize, operands: Operands<'a> },
    Branch { line: usize, operands: Operands<'a> },
    Failed { line: usize, operands: Operands<'a> },
    Working { line: usize, operands: Operands<'a> },
    Door { line: usize, operands: Operands<'a> },
}

// Does a word end where these bytes begin?
fn ends_word(rest: &[u8]) -> bool
    ensures { result ≡ ends_word rest.now }
{
    matches!(rest, [] | [b' ', ..])
}

// The card of a line that begins with FAILED, WORKING or DOOR.
// Stays a function of its own: one match of all five patterns has more ways than the check splits.
fn mark_or_door(line: Line<'_>) -> Result<Card<'_>, DeckFault>
    ensures { MatchResult
        result
        (λ found. Titled line.entry.bytes.now line.entry.number found)
        (λ fault. (fault ≡ Word) × (Lacks failed line.entry.bytes.now × Lacks working line.entry.bytes.now × Lacks door line.entry.bytes.now)) }
{
    let Line { number, bytes } = line;
    match bytes {
        [b'F', b'A', b'I', b'L', b'E', b'D', text @ ..] if ends_word(text) => Ok(Card::Failed {
            line: number,
            operands: Operands { text },
        }),
        [b'W', b'O', b'R', b'K', b'I', b'N', b'G', text @ ..] if ends_word(text) => Ok(
            Card::Working {
                line: number,
                operands: Operands { text },
            },
        ),
        [b'D', b'O', b'O', b'R', text @ ..] if ends_word(text) => Ok(Card::Door {
            line: number,
            operands: Operands { text },
        }),
        _ => Err(DeckFault::Word),
    }
}

// The card of a line that begins with one of the five words.
pub(crate) fn card_of(line: Line<'_>) -> Result<Card<'_>, DeckFault>
    ensures { MatchResult
        result
        (λ found. Titled line.entry.bytes.now line.entry.number found)
        (λ fault. (fault ≡ Word) × Untitled line.entry.bytes.now) }
{
    let Line { number, bytes } = line;
    match bytes {
        [b'N', b'O', b'D', b'E', b'S', text @ ..] if ends_word(text) => Ok(Card::Nodes {
            line: number,
            operands: Operands { text },
        }),
        [b'B', b'R', b'A', b'N', b'C', b'H', text @ ..] if ends_word(text) => Ok(Card::Branch {
            line: number,
            operands: Operands { text },
        }),
        _ => mark_or_door(line),
    }
}
