// What a caller is told of a refusal.
ghost use Rattle.std.specs.Prelude.{[], ◌∷◌, Some};
ghost use Rattle.refusals.specs.Refusals.{letter};

use std::fmt;

/// The part of the engine whose question was answered no.
#[derive(Clone, Copy, Debug, PartialEq, Eq)]
pub enum Layer {
    Network,
    Study,
    Deck,
}

/// The number of the question, its layer, and the branch it is about, 0 where it is about none.
// Stays numbers, and place 0 for none: the rules print these three figures of every refusal.
#[derive(Clone, Copy, Debug, PartialEq, Eq)]
pub struct Refusal {
    pub number: u32,
    pub layer: Layer,
    pub place: u32,
}

// The layer's letter: N, S or D.
impl fmt::Display for Layer {
    ghost output = { λ layer. Some (letter layer ∷ []) };

    fn fmt<W: fmt::Write>(&self, f: &mut fmt::Formatter<W>) -> fmt::Result {
        f.write_str(match *self {
            Layer::Network => "N",
            Layer::Study => "S",
            Layer::Deck => "D",
        })
    }
}
