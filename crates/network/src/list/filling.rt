// Making a list from a table.
ghost use Rattle.std.specs.Prelude.{◌≡◌, ◌≤◌, [], length, OnOk, OnErr};
ghost use Rattle.network.specs.Meaning.{empty_net, list_net, list_rated};
ghost use Rattle.refusals.specs.Questions.{first_no, refusal_of};
ghost use Rattle.refusals.specs.Refusals.{network_refusal};
ghost use Rattle.network.specs.Questions.{rows_asked, list_asked};
ghost use Rattle.network.specs.Refusing.{list_questions};

use crate::branch::TableRow;
use crate::list::List;
use crate::questions::{check_branch_count, check_nodes, check_row};
use crate::traits::{Network, RatedNetwork};
use refusals::network_fault::NetworkFault;

fn check_rows(nodes: u32, table: &[TableRow]) -> Result<(), NetworkFault>
    requires { length table.now ≤ 64 }
    ensures { result ≡ rows_asked nodes 0 table.now }
{
    for (k, row) in table.iter().enumerate() {
        check_row(nodes, k as u32, row)?;
    }
    Ok(())
}

// The questions of a list, in their order.
// Stays a node count beside a table: together they are a list, which holds only what has passed these questions.
fn check_table(nodes: u32, table: &[TableRow]) -> Result<(), NetworkFault>
    ensures { result ≡ list_asked nodes table.now }
{
    check_nodes(nodes)?;
    check_branch_count(table.len())?;
    check_rows(nodes, table)
}

impl<'a> List<'a> {
    pub fn new() -> List<'a>
        ensures plain { ⟦<List<'a> as Network>⟧.net result ≡ empty_net }
        ensures rated { ⟦<List<'a> as RatedNetwork>⟧.rated result ≡ record { plain = empty_net; ratings = [] } }
    {
        List {
            nodes: 0,
            table: &[],
        }
    }

    /// Takes the table's branches, or refuses and stays as it was. The refusal is that of the first question answered no: 1,
    /// 2, and then 3 and 4 for each row in turn.
    #[tactic(auto, using(crate::proofs::Firsts::list_first))]
    pub fn fill(&mut self, nodes: u32, table: &'a [TableRow]) -> Result<(), NetworkFault>
        ensures answer { result ≡ list_asked nodes table.now }
        ensures refusal { refusal_of network_refusal result ≡ first_no (list_questions nodes table.now) }
        ensures plain { OnOk result (⟦<List<'a> as Network>⟧.net self.new ≡ list_net nodes table.now) }
        ensures rated { OnOk result (⟦<List<'a> as RatedNetwork>⟧.rated self.new ≡ list_rated nodes table.now) }
        ensures refused { OnErr result (self.new ≡ self.old) }
    {
        check_table(nodes, table)?;
        *self = List { nodes, table };
        Ok(())
    }
}
