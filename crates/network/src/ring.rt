// A ring of nodes.
ghost use Rattle.std.specs.Prelude.{◌≡◌, refl, ◌≤◌, Ok, Err, MatchResult, IfOk};
ghost use Rattle.refusals.specs.Questions.{first_no, refusal_of};
ghost use Rattle.refusals.specs.Refusals.{network_refusal};
ghost use Rattle.network.specs.Refusing.{ring_questions};
ghost use Rattle.network.specs.Ratings.{rating_from};
ghost use Rattle.network.specs.Questions.{ring_asked};
ghost use Rattle.network.specs.Meaning.{ring_net, ring_rated};
ghost use Rattle.network.specs.Legality.{legal-ring, legal-ring_rated};

use crate::branch::{Branch, Condition};
use crate::questions::check_nodes;
use crate::rating::Rating;
use crate::traits::{Network, RatedNetwork};
use refusals::network_fault::NetworkFault;

/// As many branches as nodes, all with one rating: branch k joins k and k + 1, and the last joins n - 1 and 0.
#[derive(Clone, Copy, Debug, PartialEq, Eq)]
pub struct Ring {
    nodes: u32,
    rating: Rating,
    ghost few: { nodes ≤ 32 },
}

impl Ring {
    /// A ring, or the refusal of the first question answered no: 1, then 4 at place 0, since all branches have the rating.
    // Stays two bare numbers: whether they are a rating is one of the questions.
    #[tactic(auto, using(crate::proofs::Firsts::ring_first))]
    pub fn new(nodes: u32, mantissa: u32, exponent: u32) -> Result<Ring, NetworkFault>
        ensures answer { MatchResult
            result
            (λ _. ring_asked nodes mantissa exponent ≡ Ok tt)
            (λ fault. ring_asked nodes mantissa exponent ≡ Err fault) }
        ensures plain { IfOk result (λ s. ⟦<Ring as Network>⟧.net s ≡ ring_net nodes) }
        ensures rated { IfOk result (λ s. ⟦<Ring as RatedNetwork>⟧.rated s ≡ ring_rated nodes (rating_from mantissa exponent)) }
        ensures refusal { refusal_of network_refusal result ≡ first_no (ring_questions nodes mantissa exponent) }
    {
        check_nodes(nodes)?;
        let rating = Rating::new(mantissa, exponent).ok_or(NetworkFault::BadRating(0))?;
        Ok(Ring { nodes, rating })
    }
}

impl Network for Ring {
    ghost net = { λ s. ring_net s.nodes };

    ghost legal = { λ s. legal-ring s.nodes s.few };

    fn nodes(&self) -> u32 {
        self.nodes
    }

    fn branches(&self) -> u32 {
        self.nodes
    }

    fn branch(&self, k: u32) -> Option<Branch> {
        if k >= self.nodes {
            return None;
        }
        let to = if k + 1 == self.nodes { 0 } else { k + 1 };
        Some(Branch {
            from: k,
            to,
            condition: Condition::Able,
        })
    }
}

impl RatedNetwork for Ring {
    ghost rated = { λ s. ring_rated s.nodes s.rating };

    ghost legal = { λ s. legal-ring_rated s.nodes s.rating s.few };

    ghost same = { λ _. refl };

    fn rating(&self, k: u32) -> Option<Rating> {
        (k < self.nodes).then_some(self.rating)
    }
}
