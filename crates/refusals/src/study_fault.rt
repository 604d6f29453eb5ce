// What a study refuses, and the network faults below it.
ghost use Rattle.std.specs.Prelude.{◌≡◌};
ghost use Rattle.refusals.specs.Refusals.{study_refusal};
ghost use Rattle.refusals.specs.declared.study_fault.StudyFault.TheVariants.{Network};

use crate::layer::{Layer, Refusal};
use crate::network_fault::NetworkFault;
use std::fmt;
use thiserror::Error;

/// The questions 5 to 13, in their order.
#[derive(Clone, Copy, Debug, PartialEq, Eq, Error)]
pub enum StudyFault {
    #[error(transparent)]
    Network(NetworkFault),
    #[error("the head is no node")]
    Head,
    #[error("the door is no node")]
    Door,
    #[error("the door is the head")]
    DoorIsHead,
    #[error("the door is not joined to the head")]
    Unjoined,
    #[error("the door stays joined to the head even if every branch able to fail has failed")]
    Inseparable,
    #[error("no aim was accepted")]
    NoAim,
    #[error("the budget is not from 1 to 10,000")]
    Budget,
    #[error("there is no such row")]
    NoRow,
    #[error("the buffer has fewer than 320 bytes")]
    Buffer,
}

// Stays by hand: what #[from] writes promises no case.
impl From<NetworkFault> for StudyFault {
    ghost from_gives = { λ fault r. r ≡ Network fault };

    fn from(fault: NetworkFault) -> StudyFault {
        StudyFault::Network(fault)
    }
}

impl From<StudyFault> for Refusal {
    ghost from_gives = { λ fault r. r ≡ study_refusal fault };

    fn from(fault: StudyFault) -> Refusal {
        let number = match fault {
            StudyFault::Network(fault) => return fault.into(),
            StudyFault::Head => 5,
            StudyFault::Door => 6,
            StudyFault::DoorIsHead => 7,
            StudyFault::Unjoined => 8,
            StudyFault::Inseparable => 9,
            StudyFault::NoAim => 10,
            StudyFault::Budget => 11,
            StudyFault::NoRow => 12,
            StudyFault::Buffer => 13,
        };
        Refusal {
            number,
            layer: Layer::Study,
            place: 0,
        }
    }
}
