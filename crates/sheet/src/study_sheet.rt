// The sheet of a deck: why it is refused, or the sheet of each of its doors.
ghost use Rattle.std.specs.Prelude.{◌≡◌, ◌++◌, IfOk, string_bytes, OnOk};
ghost use Rattle.deck.specs.Cards.{cards};
ghost use Rattle.deck.specs.Doorways.{doors_in};
ghost use Rattle.sheet.specs.Sheets.{door_texts, sheet_text};

use crate::door_text::write_door;
use crate::reading::read_network;
use deck::doors::Doors;
use engine::study::Study;
use network::branch::TableRow;
use network::traits::RatedNetwork;
use std::alloc::{AllocError, Global};

// The sheets of a deck's doors, one after the other, all by one study.
fn write_doors<N: RatedNetwork>(
    text: &mut String,
    study: &mut Study,
    network: &N,
    head: u32,
    bytes: &[u8],
) -> Result<(), AllocError>
    ensures { OnOk result (string_bytes text.new ≡ string_bytes text.old ++ door_texts (N.RatedNetwork.rated network.now) head (doors_in (cards bytes.now))) }
{
    for door in Doors::new(bytes) {
        write_door(text, study, network, head, door)?;
    }
    Ok(())
}

/// The sheet of a deck. What the study held before, of this deck or of another, has no influence on it.
pub fn write_sheet(text: &mut String, study: &mut Study, bytes: &[u8]) -> Result<(), AllocError>
    ensures { OnOk result (string_bytes text.new ≡ string_bytes text.old ++ sheet_text bytes.now) }
{
    let mut table = [TableRow::default(); 64];
    match read_network(bytes, &mut table) {
        Ok((network, head)) => write_doors(text, study, &network, head, bytes),
        Err(refusal) => writeln!(text, "{refusal}"),
    }
}

/// The sheet of a deck, as text.
pub fn sheet_of(heap: Global, bytes: &[u8]) -> Result<String, AllocError>
    ensures { IfOk result (λ text. string_bytes text ≡ sheet_text bytes.now) }
{
    let mut study = Study::new();
    let mut text = String::new(heap);
    write_sheet(&mut text, &mut study, bytes)?;
    Ok(text)
}
