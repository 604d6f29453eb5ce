// The calls of a study after its set-up, and what each answers.
ghost use Rattle.std.specs.Prelude.{◌≡◌};

use crate::progress::Progress;
use chance::bounds::Bounds;
use refusals::study_fault::StudyFault;

/// One of the two scales of a run.
#[derive(Clone, Copy, Debug, PartialEq, Eq)]
pub enum WhichScale {
    First,
    Second,
}

#[derive(Clone, Copy, Debug, PartialEq, Eq)]
pub enum Call {
    /// Aim at this door.
    Aim(u32),
    /// Make at most so many tries.
    Advance(u32),
    /// Show this row.
    Show(usize),
    /// Write the CUT line of this row into the buffer.
    Line(usize),
    /// Ask for the bounds in one of the scales.
    Bounds(WhichScale),
}

/// What a call answers, or its refusal. A is the kind of number of the first scale, and B of the second.
#[derive(Clone, Copy)]
pub enum Answer<A, B> {
    Aim(Result<(), StudyFault>),
    Advance(Result<Progress, StudyFault>),
    Show(Result<(u64, u32), StudyFault>),
    Line(Result<usize, StudyFault>),
    FirstBounds(Result<Bounds<A>, StudyFault>),
    SecondBounds(Result<Bounds<B>, StudyFault>),
}

/// A call, with the place for its answer.
#[derive(Clone, Copy)]
pub struct Asked<A, B> {
    pub call: Call,
    pub answer: Option<Answer<A, B>>,
}

impl<A, B> Asked<A, B> {
    /// A call that is not made yet.
    pub fn new(call: Call) -> Self
        ensures { result ≡ record { call = call; answer = None } }
    {
        Asked { call, answer: None }
    }
}
