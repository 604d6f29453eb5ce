// What the network layer refuses.
ghost use Rattle.std.specs.Prelude.{◌≡◌};
ghost use Rattle.refusals.specs.Refusals.{network_refusal};

use crate::layer::{Layer, Refusal};
use std::fmt;
use thiserror::Error;

/// The questions 1 to 4; in 3 and 4 the place is the branch.
#[derive(Clone, Copy, Debug, PartialEq, Eq, Error)]
pub enum NetworkFault {
    #[error("there are not 2 to 32 nodes")]
    NodeCount,
    #[error("there are not 1 to 64 branches")]
    BranchCount,
    #[error("branch {0} has an end that is no node")]
    BadEnd(u32),
    #[error("branch {0} has no legal rating")]
    BadRating(u32),
}

impl From<NetworkFault> for Refusal {
    ghost from_gives = { λ fault r. r ≡ network_refusal fault };

    fn from(fault: NetworkFault) -> Refusal {
        let (number, place) = match fault {
            NetworkFault::NodeCount => (1, 0),
            NetworkFault::BranchCount => (2, 0),
            NetworkFault::BadEnd(branch) => (3, branch),
            NetworkFault::BadRating(branch) => (4, branch),
        };
        Refusal {
            number,
            layer: Layer::Network,
            place,
        }
    }
}
