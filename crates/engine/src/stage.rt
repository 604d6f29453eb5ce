// How far a study has come: a door stands only beside the head that its aim was made from.
ghost use Rattle.std.specs.Prelude.{◌≡◌};
ghost use Rattle.engine.specs.Stages.{head_of, door_of};

#[derive(Clone, Copy, Debug, PartialEq, Eq)]
pub(crate) enum Stage {
    // no set-up was accepted yet
    Fresh,
    // set up from this head, with no accepted aim since
    SetUp { head: u32 },
    // aimed at this door
    Aimed { head: u32, door: u32 },
}

impl Stage {
    // The head of the set-up.
    pub(crate) fn head(self) -> Option<u32>
        ensures { result ≡ head_of self }
    {
        match self {
            Stage::Fresh => None,
            Stage::SetUp { head } | Stage::Aimed { head, .. } => Some(head),
        }
    }

    // The door of the last accepted aim since the set-up.
    pub(crate) fn door(self) -> Option<u32>
        ensures { result ≡ door_of self }
    {
        match self {
            Stage::Fresh | Stage::SetUp { .. } => None,
            Stage::Aimed { door, .. } => Some(door),
        }
    }
}
