// A fault of a deck with its line, where lines are counted as `usize`.
ghost use Rattle.std.specs.Prelude.{◌≡◌, Some};
ghost use Rattle.refusals.specs.Refusals.{refusal_text};

use crate::deck_fault::{DeckFault, DeckRefusal};
use crate::layer::Refusal;
use std::{error, fmt};

/// A fault with its line; line 0 where no line is at fault.
// Stays beside `DeckRefusal`, whose line is a `u32`: so no caller owes a bound, whichever way it counts.
#[derive(Clone, Copy, Debug, PartialEq, Eq)]
pub struct WideRefusal {
    pub fault: DeckFault,
    pub line: usize,
}

impl From<DeckRefusal> for WideRefusal {
    ghost from_gives = { λ refusal r. r ≡ record { fault = refusal.fault; line = refusal.line } };

    fn from(refusal: DeckRefusal) -> WideRefusal {
        refusal.fault.at(refusal.line as usize)
    }
}

impl error::Error for WideRefusal {}

// The same text as a `DeckRefusal`'s.
// Stays by hand: a text that thiserror writes promises no bytes.
impl fmt::Display for WideRefusal {
    ghost output = { λ refusal. Some (refusal_text (record { fault = refusal.fault; line = refusal.line })) };

    fn fmt<W: fmt::Write>(&self, f: &mut fmt::Formatter<W>) -> fmt::Result {
        let told: Refusal = self.fault.into();
        write!(
            f,
            "DECK REFUSED {} LAYER {} PLACE {} LINE {}",
            told.number, told.layer, told.place, self.line
        )
    }
}

#[cfg(test)]
mod tests {
    use super::WideRefusal;
    use crate::deck_fault::DeckFault;
    use crate::network_fault::NetworkFault;
    use std::test::Fail;

    // The wanted texts are the peer's: peer/test_deck.py has the same.
    #[test]
    fn tells_lines_of_any_number(rt: HostRuntime) -> Result<(), Fail> {
        for (fault, line, want) in [
            (
                DeckFault::Bytes,
                0,
                "DECK REFUSED 15 LAYER D PLACE 0 LINE 0",
            ),
            (
                DeckFault::Mark,
                4_294_967_303,
                "DECK REFUSED 19 LAYER D PLACE 0 LINE 4294967303",
            ),
            (
                NetworkFault::BadEnd(5).into(),
                18_446_744_073_709_551_615,
                "DECK REFUSED 3 LAYER N PLACE 5 LINE 18446744073709551615",
            ),
        ] {
            let refusal = fault.at(line);
            assert_eq!(rt; refusal.line, line);
            let text = format!(in rt.alloc(); "{refusal}")?;
            assert_eq!(rt; text.as_str(), want);
        }
        Ok(())
    }

    #[test]
    fn widens_a_refusal(rt: HostRuntime) {
        let narrow = DeckFault::Word.at_line(7);
        assert_eq!(rt; WideRefusal::from(narrow), DeckFault::Word.at(7));
    }
}
