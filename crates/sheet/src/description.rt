// A deck in words: why it is refused, or the network and the doors that it tells.
ghost use Rattle.std.specs.Prelude.{◌≡◌, IfOk, Some, string_bytes};
ghost use Rattle.std.specs.Fmt.{WritesOnOk};
ghost use Rattle.deck.specs.Cards.{cards};
ghost use Rattle.deck.specs.Doorways.{doors_in};
ghost use Rattle.sheet.specs.Descriptions.{door_lines, description};

use crate::network_text::NetworkText;
use crate::reading::read_network;
use deck::doors::Doors;
use network::branch::TableRow;
use std::alloc::{AllocError, Global};
use std::fmt;

/// What the deck of these bytes says.
#[derive(Clone, Copy)]
pub struct Description<'a> {
    pub bytes: &'a [u8],
}

impl<'a> fmt::Display for Description<'a> {
    ghost output = { λ d. Some (description d.bytes.now) };

    fn fmt<W: fmt::Write>(&self, f: &mut fmt::Formatter<W>) -> fmt::Result {
        let mut table = [TableRow::default(); 64];
        match read_network(self.bytes, &mut table) {
            Ok((list, head)) => {
                let network = &list;
                write!(f, "{}", NetworkText { network, head })?;
                write_doors(f, self.bytes)
            }
            Err(refusal) => writeln!(f, "{refusal}"),
        }
    }
}

// A line for each door.
fn write_doors<W: fmt::Write>(f: &mut fmt::Formatter<W>, bytes: &[u8]) -> fmt::Result
    ensures { WritesOnOk W.write_str_gives f.old result (door_lines (doors_in (cards bytes.now))) f.new }
{
    for door in Doors::new(bytes) {
        writeln!(f, "DOOR {door}")?;
    }
    Ok(())
}

/// What a deck says, as text.
pub fn describe(heap: Global, bytes: &[u8]) -> Result<String, AllocError>
    ensures { IfOk result (λ text. string_bytes text ≡ description bytes.now) }
{
    Description { bytes }.to_string(heap)
}
