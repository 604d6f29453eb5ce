// Whole lists of calls, and the law over them.
ghost use Rattle.std.specs.Prelude.{◌≡◌, length, MatchResult, OnErr, Err};
ghost use Rattle.scale.specs.Arithmetic.{Arithmetic};
ghost use Rattle.engine.specs.Studies.{state_of, called, set_up_answer};
ghost use Rattle.engine.specs.Runs.{answer as answer_of, buffer_after_call, calls_of};
ghost use Rattle.engine.specs.SoundRuns.{CarriedOut, LeadsOnSoundly, EveryRunIsSound};
ghost use Rattle.engine.specs.Cases.{BridgeRuns};

use crate::call::{Answer, Asked, Call, WhichScale};
use crate::study::Study;
use network::traits::RatedNetwork;
use refusals::study_fault::StudyFault;
use scale::Scale;

// Hands a call to the study.
// Stays apart from make_call: the law follows from these three clauses once, and not in each of six arms.
fn answer_call<S: Scale, T: Scale, N: RatedNetwork>(
    study: &mut Study,
    network: &N,
    call: Call,
    buffer: &mut [u8],
) -> Answer<S::Num, T::Num>
    ensures answer { result ≡ answer_of (N.Network.net network.now) (N.RatedNetwork.rated network.now).ratings S.Scale.arithmetic T.Scale.arithmetic (length buffer.old) (state_of study.old) call }
    ensures state { state_of study.new ≡ called (N.Network.net network.now) (state_of study.old) call }
    ensures line { buffer.new ≡ buffer_after_call (N.Network.net network.now) (state_of study.old) buffer.old call }
{
    match call {
        Call::Aim(door) => Answer::Aim(study.aim(network, door)),
        Call::Advance(budget) => Answer::Advance(study.advance(network, budget)),
        Call::Show(k) => Answer::Show(study.show(network, k)),
        Call::Line(k) => Answer::Line(study.line(network, k, buffer)),
        Call::Bounds(WhichScale::First) => Answer::FirstBounds(study.bounds::<S, N>(network)),
        Call::Bounds(WhichScale::Second) => Answer::SecondBounds(study.bounds::<T, N>(network)),
    }
}

/// Makes one call on the study. A line goes into the buffer.
// Stays a study, a network and a buffer side by side: each is lent by the caller, and no call keeps it.
pub fn make_call<S: Scale, T: Scale, N: RatedNetwork>(
    study: &mut Study,
    network: &N,
    call: Call,
    buffer: &mut [u8],
) -> Answer<S::Num, T::Num>
    ensures answer { result ≡ answer_of (N.Network.net network.now) (N.RatedNetwork.rated network.now).ratings S.Scale.arithmetic T.Scale.arithmetic (length buffer.old) (state_of study.old) call }
    ensures state { state_of study.new ≡ called (N.Network.net network.now) (state_of study.old) call }
    ensures line { buffer.new ≡ buffer_after_call (N.Network.net network.now) (state_of study.old) buffer.old call }
    ensures law { LeadsOnSoundly (N.RatedNetwork.rated network.now) S.Scale.arithmetic T.Scale.arithmetic call (state_of study.old) (state_of study.new) }
{
    answer_call::<S, T, N>(study, network, call, buffer)
}

/// Sets the study up, whatever it held, makes the calls in their order, and puts beside each what it answered. All lines go
/// into one buffer. A head that is no node is refused with 5 before anything is touched, and nothing else is refused.
pub fn carry_out<S: Scale, T: Scale, N: RatedNetwork>(
    study: &mut Study,
    network: &N,
    head: u32,
    asked: &mut [Asked<S::Num, T::Num>],
    buffer: &mut [u8],
) -> Result<(), StudyFault>
    ensures run { MatchResult result
        (λ _. CarriedOut (N.RatedNetwork.rated network.now) head S.Scale.arithmetic T.Scale.arithmetic (calls_of asked.old) (state_of study.new) asked.new buffer.old buffer.new)
        (λ fault. set_up_answer (N.RatedNetwork.rated network.now).plain head ≡ Err fault) }
    ensures kept_study { OnErr result (study.new ≡ study.old) }
    ensures kept_places { OnErr result (asked.new ≡ asked.old) }
    ensures kept_buffer { OnErr result (buffer.new ≡ buffer.old) }
{
    study.set_up(network, head)?;
    for place in asked.iter_mut() {
        place.answer = Some(make_call::<S, T, N>(study, network, place.call, buffer));
    }
    Ok(())
}

/// In every scale with numbers of type T, every list of calls lists minimal cuts and encloses the chance.
pub fn every_run_is_sound<T>()
    ensures { EveryRunIsSound T }
{}

/// Runs on the bridge, worked to the end.
pub fn bridge_runs_hold<A, B>()
    ensures { (first : Arithmetic A) (second : Arithmetic B) → BridgeRuns first second }
{}
