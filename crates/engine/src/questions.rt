// What is asked of a door and of a budget. The first no decides.
ghost use Rattle.std.specs.Prelude.{◌≡◌};
ghost use Rattle.engine.specs.Questions.{door_asked, budget_asked};

use network::traits::Network;
use refusals::study_fault::StudyFault;
use search::questions::{is_held, is_joined};

// Is the door a node, another than the head, joined to it, and not so joined that no failure can part them?
// Stays a network beside a head and a door: aim alone asks, and would make the struct for this one call.
pub(crate) fn check_door<N: Network>(network: &N, head: u32, door: u32) -> Result<(), StudyFault>
    ensures { result ≡ door_asked (N.net network.now) head door }
{
    if door >= network.nodes() {
        return Err(StudyFault::Door);
    }
    if door == head {
        return Err(StudyFault::DoorIsHead);
    }
    if !is_joined(network, head, door) {
        return Err(StudyFault::Unjoined);
    }
    if is_held(network, head, door) {
        return Err(StudyFault::Inseparable);
    }
    Ok(())
}

// Is the budget from 1 to 10,000?
pub(crate) fn check_budget(budget: u32) -> Result<(), StudyFault>
    ensures { result ≡ budget_asked budget }
{
    if !(1..=10_000).contains(&budget) {
        return Err(StudyFault::Budget);
    }
    Ok(())
}
