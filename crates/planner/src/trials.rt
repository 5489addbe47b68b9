// Loads, changes on trial, and how a trial ends.
ghost use Rattle.std.specs.Prelude.{◌≡◌, false, is_some};
ghost use Rattle.plans.specs.CallsInWords.{AdmitsPublished, ChangesEdges, LeavesPublished};
ghost use Rattle.planner.specs.Calls.{Loads, Opens, ChangesBy, EndsKept, EndsUndone, without_decision};
ghost use Rattle.planner.specs.States.{state_of};
ghost use Rattle.plans.specs.declared.change.Change.TheVariants.{Rotate, Swap, Reverse, MoveEdge};

use crate::decision::{Decision, Undecided};
use crate::noted::Noted;
use crate::plan::Plan;
use plans::{Change, PlanChangeRefusal, PlanLoadRefusal};
use representations::Representation;

impl<R: Representation> Plan<R> {
    /// Puts in a table of codes, row after row, with its packing sequence. Where no trial is open it is accepted exactly
    /// where the published definition admits the table with the sequence. A refused load leaves the plan.
    pub fn load(&mut self, codes: &[u8], sequence: &[usize]) -> Result<(), PlanLoadRefusal>
        ensures model { Loads self.old self.new codes.now sequence.now result }
        ensures admits { AdmitsPublished (state_of self.old) codes.now sequence.now result }
        ensures published { LeavesPublished result (state_of self.new) }
    {
        if self.trial.is_some() {
            return Err(PlanLoadRefusal::TrialOpen);
        }
        self.load_settled(codes, sequence)
    }

    // Loads where no trial is open.
    fn load_settled(&mut self, codes: &[u8], sequence: &[usize]) -> Result<(), PlanLoadRefusal>
        requires { is_some self.old.trial ≡ false }
        ensures model { Loads self.old self.new codes.now sequence.now result }
        ensures admits { AdmitsPublished (state_of self.old) codes.now sequence.now result }
        ensures published { LeavesPublished result (state_of self.new) }
    {
        self.current.load(codes, sequence)?;
        Ok(())
    }

    /// Makes a change, on trial; where it is done, its decision is handed out. A refused change leaves the plan.
    pub fn change(&mut self, change: Change) -> Result<Decision, PlanChangeRefusal>
        ensures model { ChangesBy self.old self.new change result }
        ensures edges { ChangesEdges (state_of self.old) (state_of self.new) change (without_decision result) }
        ensures published { LeavesPublished (without_decision result) (state_of self.new) }
    {
        if self.trial.is_some() {
            return Err(PlanChangeRefusal::TrialOpen);
        }
        self.open_trial(change)?;
        Ok(Decision::new())
    }

    // Notes what is current and makes a change, where no trial is open.
    fn open_trial(&mut self, change: Change) -> Result<(), PlanChangeRefusal>
        requires { is_some self.old.trial ≡ false }
        ensures model { Opens self.old self.new change result }
        ensures edges { ChangesEdges (state_of self.old) (state_of self.new) change result }
        ensures published { LeavesPublished result (state_of self.new) }
    {
        let noted = Noted::new(&self.current);
        self.current.apply(change)?;
        self.trial = Some(noted);
        Ok(())
    }

    /// Exchanges the two sides of a module, on trial.
    pub fn rotate(&mut self, module: usize) -> Result<Decision, PlanChangeRefusal>
        ensures model { ChangesBy self.old self.new (Rotate «module») result }
        ensures edges { ChangesEdges (state_of self.old) (state_of self.new) (Rotate «module») (without_decision result) }
        ensures published { LeavesPublished (without_decision result) (state_of self.new) }
    {
        self.change(Change::Rotate(module))
    }

    /// Lets two modules take each other's place, on trial.
    pub fn swap(&mut self, a: usize, b: usize) -> Result<Decision, PlanChangeRefusal>
        ensures model { ChangesBy self.old self.new (Swap a b) result }
        ensures edges { ChangesEdges (state_of self.old) (state_of self.new) (Swap a b) (without_decision result) }
        ensures published { LeavesPublished (without_decision result) (state_of self.new) }
    {
        self.change(Change::Swap(a, b))
    }

    /// Turns the reduction edge (a, b) round in its graph, on trial.
    pub fn reverse(&mut self, a: usize, b: usize) -> Result<Decision, PlanChangeRefusal>
        ensures model { ChangesBy self.old self.new (Reverse a b) result }
        ensures edges { ChangesEdges (state_of self.old) (state_of self.new) (Reverse a b) (without_decision result) }
        ensures published { LeavesPublished (without_decision result) (state_of self.new) }
    {
        self.change(Change::Reverse(a, b))
    }

    /// Moves the reduction edge (a, b) to the other graph, on trial.
    pub fn move_edge(&mut self, a: usize, b: usize) -> Result<Decision, PlanChangeRefusal>
        ensures model { ChangesBy self.old self.new (MoveEdge a b) result }
        ensures edges { ChangesEdges (state_of self.old) (state_of self.new) (MoveEdge a b) (without_decision result) }
        ensures published { LeavesPublished (without_decision result) (state_of self.new) }
    {
        self.change(Change::MoveEdge(a, b))
    }

    /// Ends the trial and leaves its change. Without a trial the decision is handed back.
    pub fn keep(&mut self, decision: Decision) -> Result<(), Undecided>
        ensures { EndsKept self.old self.new result }
    {
        if self.trial.is_none() {
            return Err(decision.handed_back());
        }
        self.trial = None;
        decision.spend();
        Ok(())
    }

    /// Ends the trial and restores what was current before it. Without a trial the decision is handed back.
    pub fn undo(&mut self, decision: Decision) -> Result<(), Undecided>
        ensures { EndsUndone self.old self.new result }
    {
        let Some(noted) = self.trial.take() else {
            return Err(decision.handed_back());
        };
        noted.restore(&mut self.current);
        decision.spend();
        Ok(())
    }
}
