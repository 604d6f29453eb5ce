// The calls of a study.
ghost use Rattle.std.specs.Prelude.{◌≡◌, ◌≤◌, [], length, IfOk, OnOk, OnErr};
ghost use Rattle.std.specs.Option.{ok_or};
ghost use Rattle.refusals.specs.declared.study_fault.StudyFault.TheVariants.{NoAim};
ghost use Rattle.engine.specs.Stages.{door_of};
ghost use Rattle.engine.specs.declared.call.Call.TheVariants.{Aim, Advance, Show, Line, Bounds as AskBounds};
ghost use Rattle.engine.specs.declared.call.WhichScale.{WhichScale};
ghost use Rattle.engine.specs.Runs.{StandsAfter};
ghost use Rattle.engine.specs.SoundRuns.{LeadsOn, BoundsEncloseTheChance};
ghost use Rattle.engine.specs.Studies.{no_state, state_of, Forgets, set_up, set_up_answer, called, aim_answer, progress, progress_of, advanced_by, advance_answer, show_answer, bounds_answer, line_answer, line_written, standing_answer};

use crate::listing::list_cuts;
use crate::progress::Progress;
use crate::questions::{check_budget, check_door};
use crate::stage::Stage;
use crate::study::Study;
use arrayvec::ArrayVec;
use chance::bounds::{Bounds, bounds_of};
use cut_line::write_cut;
use network::cut::Cut;
use network::questions::check_head;
use network::traits::{Network, RatedNetwork};
use refusals::study_fault::StudyFault;
use scale::Scale;
use search::cut::cut_of;
use search::questions::first_row;
use search::run::{run_tries, status_of};
use search::status::Status;
use search::table::Table;

impl Study {
    /// A study before its first set-up.
    pub fn new() -> Study
        ensures { state_of result ≡ no_state }
    {
        Study {
            stage: Stage::Fresh,
            table: Table::empty(),
            tries: 0,
        }
    }

    /// Takes the head, and leaves no aim. Refused with 5 where the head is no node.
    // Stays clauses of each call: kept and run are of the study before and after it, where a ghost field sees one study alone.
    pub fn set_up<N: Network>(&mut self, network: &N, head: u32) -> Result<(), StudyFault>
        ensures answer { result ≡ set_up_answer (N.net network.now) head }
        ensures state { state_of self.new ≡ set_up (N.net network.now) head (state_of self.old) }
        ensures kept { OnErr result (self.new ≡ self.old) }
        ensures forgets { Forgets (N.net network.now) head result (state_of self.new) }
        ensures run { OnOk result (StandsAfter (N.net network.now) head [] (state_of self.new)) }
    {
        check_head(network.nodes(), head)?;
        self.stage = Stage::SetUp { head };
        self.table.clear();
        self.tries = 0;
        Ok(())
    }

    /// Takes the door, and writes row 0 of its search. Refused with 6, 7, 8 or 9, and with 6 before a set-up.
    pub fn aim<N: Network>(&mut self, network: &N, door: u32) -> Result<(), StudyFault>
        ensures answer { result ≡ aim_answer (N.net network.now) door (state_of self.old) }
        ensures state { state_of self.new ≡ called (N.net network.now) (state_of self.old) (Aim door) }
        ensures kept { OnErr result (self.new ≡ self.old) }
        ensures run { LeadsOn (N.net network.now) (Aim door) (state_of self.old) (state_of self.new) }
    {
        // before a set-up no number is a door
        let head = self.stage.head().ok_or(StudyFault::Door)?;
        check_door(network, head, door)?;
        self.stage = Stage::Aimed { head, door };
        self.table.begin(first_row(network, head, door));
        self.tries = 0;
        Ok(())
    }

    // The door of the last accepted aim.
    fn door(&self) -> Result<u32, StudyFault>
        ensures { result ≡ ok_or (door_of self.now.stage) NoAim }
    {
        self.stage.door().ok_or(StudyFault::NoAim)
    }

    // So many tries, with the rows and the status for the door.
    fn progress<N: Network>(&self, network: &N, door: u32, tries: u32) -> Progress
        ensures { result ≡ progress_of (N.net network.now) door tries (state_of self.now).search.rows }
    {
        Progress {
            tries,
            rows: self.table.len(),
            status: status_of(&self.table, network, door),
        }
    }

    // Makes tries for the door until the budget is spent or none can be made.
    fn try_up_to<N: Network>(&mut self, network: &N, door: u32, budget: u32) -> Progress
        ensures answer { result ≡ progress (N.net network.now) door budget (state_of self.old).search }
        ensures state { state_of self.new ≡ advanced_by (N.net network.now) door budget (state_of self.old) }
    {
        let tries = run_tries(&mut self.table, network, door, budget);
        self.tries += tries;
        self.progress(network, door, tries)
    }

    /// Makes at most so many tries, and answers how far the search has come. Refused with 10 or 11.
    pub fn advance<N: Network>(&mut self, network: &N, budget: u32) -> Result<Progress, StudyFault>
        ensures answer { result ≡ advance_answer (N.net network.now) budget (state_of self.old) }
        ensures state { state_of self.new ≡ called (N.net network.now) (state_of self.old) (Advance budget) }
        ensures within { IfOk result (λ made. made.tries ≤ budget) }
        ensures kept { OnErr result (self.new ≡ self.old) }
        ensures run { LeadsOn (N.net network.now) (Advance budget) (state_of self.old) (state_of self.new) }
    {
        let door = self.door()?;
        check_budget(budget)?;
        Ok(self.try_up_to(network, door, budget))
    }

    /// The row count.
    pub fn rows(&self) -> usize
        ensures { result ≡ length (state_of self.now).search.rows }
    {
        self.table.len()
    }

    /// How the search stands: the tries since the aim, the rows, and the status. Refused with 10.
    pub fn standing<N: Network>(&self, network: &N) -> Result<Progress, StudyFault>
        ensures { result ≡ standing_answer (N.net network.now) (state_of self.now) }
    {
        let door = self.door()?;
        Ok(self.progress(network, door, self.tries))
    }

    /// The branch set and the node vector of row k, as bare words: bit i stands for number i. Refused with 10 or 12.
    // Stays a pair of bare words: the rules of the project fix that showing answers (u64, u32).
    pub fn show<N: Network>(&self, network: &N, k: usize) -> Result<(u64, u32), StudyFault>
        ensures answer { result ≡ show_answer (N.net network.now) k (state_of self.now) }
        ensures run { LeadsOn (N.net network.now) (Show k) (state_of self.now) (state_of self.now) }
    {
        self.door()?;
        let row = self.table.row(k).ok_or(StudyFault::NoRow)?;
        let Cut { branches, nodes } = cut_of(network, &row);
        Ok((branches.into(), nodes.into()))
    }

    /// The bounds on the chance that the door is cut off, in a scale of the caller's choice. Refused with 10.
    pub fn bounds<S: Scale, N: RatedNetwork>(
        &self,
        network: &N,
    ) -> Result<Bounds<S::Num>, StudyFault>
        ensures answer { result ≡ bounds_answer (N.Network.net network.now) (N.RatedNetwork.rated network.now).ratings S.Scale.arithmetic (state_of self.now) }
        ensures run { (which : WhichScale) → LeadsOn (N.Network.net network.now) (AskBounds which) (state_of self.now) (state_of self.now) }
        ensures chance { BoundsEncloseTheChance (N.RatedNetwork.rated network.now) S.Scale.arithmetic (state_of self.now) }
    {
        let door = self.door()?;
        let mut cuts = ArrayVec::new();
        list_cuts(network, &self.table, &mut cuts);
        let finished = status_of(&self.table, network, door) == Status::Finished;
        Ok(bounds_of::<S, N>(network, cuts.as_slice(), finished))
    }

    /// Writes the CUT line of row k into the buffer, and answers its length; the bytes after it stay. Refused with 10, 12 or
    /// 13.
    pub fn line<N: Network>(
        &self,
        network: &N,
        k: usize,
        buffer: &mut [u8],
    ) -> Result<usize, StudyFault>
        ensures answer { result ≡ line_answer (N.net network.now) k (length buffer.old) (state_of self.now) }
        ensures bytes { buffer.new ≡ line_written (N.net network.now) k buffer.old (state_of self.now) }
        ensures kept { OnErr result (buffer.new ≡ buffer.old) }
        ensures run { LeadsOn (N.net network.now) (Line k) (state_of self.now) (state_of self.now) }
    {
        let (branches, nodes) = self.show(network, k)?;
        write_cut(buffer, branches, nodes)
    }
}
