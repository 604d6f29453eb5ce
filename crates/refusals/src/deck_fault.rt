// What refuses a deck, the study and network faults below it, and the line where it stands.
ghost use Rattle.std.specs.Prelude.{◌≡◌, Some};
ghost use Rattle.refusals.specs.Refusals.{deck_refusal, refusal_text};
ghost use Rattle.refusals.specs.declared.deck_fault.DeckFault.TheVariants.{Study};
ghost use Rattle.refusals.specs.declared.study_fault.StudyFault.TheVariants.{Network};

use crate::layer::{Layer, Refusal};
use crate::network_fault::NetworkFault;
use crate::study_fault::StudyFault;
use crate::wide_refusal::WideRefusal;
use std::{error, fmt};
use thiserror::Error;

/// The questions 14 to 19, in their order.
#[derive(Clone, Copy, Debug, PartialEq, Eq, Error)]
pub enum DeckFault {
    #[error(transparent)]
    Study(StudyFault),
    #[error("the table has fewer than 64 places")]
    Table,
    #[error("the deck has over 65,536 bytes, or no byte 10 at its end")]
    Bytes,
    #[error("the line begins with none of the five words")]
    Word,
    #[error("the card is not in turn")]
    Turn,
    #[error("these are not the card's numbers")]
    Numbers,
    #[error("the mark names no branch")]
    Mark,
}

// Stays by hand: what #[from] writes promises no case.
impl From<StudyFault> for DeckFault {
    ghost from_gives = { λ fault r. r ≡ Study fault };

    fn from(fault: StudyFault) -> DeckFault {
        DeckFault::Study(fault)
    }
}

impl From<NetworkFault> for DeckFault {
    ghost from_gives = { λ fault r. r ≡ Study (Network fault) };

    fn from(fault: NetworkFault) -> DeckFault {
        DeckFault::Study(StudyFault::Network(fault))
    }
}

impl From<DeckFault> for Refusal {
    ghost from_gives = { λ fault r. r ≡ deck_refusal fault };

    fn from(fault: DeckFault) -> Refusal {
        let number = match fault {
            DeckFault::Study(fault) => return fault.into(),
            DeckFault::Table => 14,
            DeckFault::Bytes => 15,
            DeckFault::Word => 16,
            DeckFault::Turn => 17,
            DeckFault::Numbers => 18,
            DeckFault::Mark => 19,
        };
        Refusal {
            number,
            layer: Layer::Deck,
            place: 0,
        }
    }
}

/// A fault with its line; line 0 where no line is at fault.
// Stays a number with 0 for none: the rules print LINE 0 for a deck refused as a whole.
#[derive(Clone, Copy, Debug, PartialEq, Eq)]
pub struct DeckRefusal {
    pub fault: DeckFault,
    pub line: u32,
}

impl DeckFault {
    /// The fault with the line where it stands, counted from 1.
    pub fn at_line(self, line: u32) -> DeckRefusal
        ensures { result ≡ record { fault = self; line = line } }
    {
        DeckRefusal { fault: self, line }
    }

    /// The fault with its line, for a caller that counts lines as `usize`.
    pub fn at(self, line: usize) -> WideRefusal
        ensures { result ≡ record { fault = self; line = line } }
    {
        WideRefusal { fault: self, line }
    }
}

impl error::Error for DeckRefusal {}

// As the programs print it.
// Stays by hand: a text that thiserror writes promises no bytes.
impl fmt::Display for DeckRefusal {
    ghost output = { λ refusal. Some (refusal_text refusal) };

    fn fmt<W: fmt::Write>(&self, f: &mut fmt::Formatter<W>) -> fmt::Result {
        let Refusal {
            number,
            layer,
            place,
        } = self.fault.into();
        let line = self.line;
        write!(
            f,
            "DECK REFUSED {number} LAYER {layer} PLACE {place} LINE {line}"
        )
    }
}
