// What is asked before a network is made or studied. The first no decides.
ghost use Rattle.std.specs.Prelude.{◌≡◌};
ghost use Rattle.network.specs.Questions.{nodes_asked, count_asked, row_asked, head_asked};

use crate::branch::TableRow;
use refusals::network_fault::NetworkFault;
use refusals::study_fault::StudyFault;

// Stays a function for each question: one for all would take number, limits and fault, and be no shorter than the test.

/// Are there 2 to 32 nodes? Refused with 1.
pub fn check_nodes(nodes: u32) -> Result<(), NetworkFault>
    ensures { result ≡ nodes_asked nodes }
{
    if !(2..=32).contains(&nodes) {
        return Err(NetworkFault::NodeCount);
    }
    Ok(())
}

/// Are there 1 to 64 branches? Refused with 2.
pub fn check_branch_count(branches: usize) -> Result<(), NetworkFault>
    ensures { result ≡ count_asked branches }
{
    if !(1..=64).contains(&branches) {
        return Err(NetworkFault::BranchCount);
    }
    Ok(())
}

/// Has branch k both ends below the node count, and a legal rating? Refused with 3 or 4, at place k.
pub fn check_row(nodes: u32, k: u32, row: &TableRow) -> Result<(), NetworkFault>
    ensures { result ≡ row_asked nodes k row.now }
{
    if row.from >= nodes || row.to >= nodes {
        return Err(NetworkFault::BadEnd(k));
    }
    row.rating().ok_or(NetworkFault::BadRating(k))?;
    Ok(())
}

/// May a study be set up on a network of so many nodes, with this head? Refused with 5.
pub fn check_head(nodes: u32, head: u32) -> Result<(), StudyFault>
    ensures { result ≡ head_asked nodes head }
{
    if head >= nodes {
        return Err(StudyFault::Head);
    }
    Ok(())
}
