// The network of a deck.
ghost use Rattle.std.specs.Prelude.{◌≡◌, Err, MatchResult};
ghost use Rattle.deck.specs.Decks.{read_bytes};
ghost use Rattle.sheet.specs.Reading.{Tells};

use deck::reader::read_deck;
use network::branch::TableRow;
use network::list::List;
use network::traits::RatedNetwork;
use refusals::deck_fault::DeckRefusal;

/// The network that a deck tells, over the table that it fills, and the head. A list takes the rows of an accepted deck,
/// since the deck was asked the same questions.
// Stays a table of the caller with a count beside it: the rules fix its 64 places, of which the list borrows the first.
pub fn read_network<'a>(
    bytes: &[u8],
    table: &'a mut [TableRow; 64],
) -> Result<(List<'a>, u32), DeckRefusal>
    ensures { MatchResult result (λ read. Tells bytes.now (⟦<List<'a> as RatedNetwork>⟧.rated read.0) read.1) (λ refusal. read_bytes 64 bytes.now ≡ Err refusal) }
{
    let deck = read_deck(bytes, table)?;
    let mut list = List::new();
    list.fill(deck.nodes, &table[..deck.branches as usize])
        .unwrap();
    Ok((list, deck.head))
}
