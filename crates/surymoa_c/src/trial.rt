// A plan with the decision on its trial at hand.
ghost use Rattle.std.specs.Prelude.{◌≡◌, is_some, IsOk};
ghost use Rattle.planner.specs.States.{state_of};

use planner::{Decision, Plan, Undecided};
use plans::{Change, PlanChangeRefusal, PlanLoadRefusal, TrialRefusal};
use representations::Representation;

// An end of a trial that is not refused. There is no `unwrap` here: a refusal holds a decision, which can't be let go.
fn ended(answer: Result<(), Undecided>)
    requires { IsOk answer }
{
    match answer {
        Ok(()) => {}
        Err(_) => unreachable!(),
    }
}

// A decision is at hand exactly when a trial is open.
pub(crate) struct PlanInHand<R: Representation> {
    pub(crate) plan: Plan<R>,
    hand: Option<Decision>,
    ghost at_hand: { is_some hand ≡ is_some (state_of plan).noted },
}

impl<R: Representation> PlanInHand<R> {
    // A fresh plan over a representation, with no trial open.
    pub(crate) fn new(representation: R) -> PlanInHand<R> {
        PlanInHand {
            plan: Plan::new(representation),
            hand: None,
        }
    }

    // Loads a floorplan, where no trial is open.
    pub(crate) fn load(&mut self, codes: &[u8], sequence: &[usize]) -> Result<(), PlanLoadRefusal> {
        self.plan.load(codes, sequence)
    }

    // Makes a change on trial and takes its decision to hand.
    pub(crate) fn change(&mut self, change: Change) -> Result<(), PlanChangeRefusal> {
        let decision = self.plan.change(change)?;
        match self.hand.replace(decision) {
            None => Ok(()),
            Some(_) => unreachable!(),
        }
    }

    // Keeps the change on trial, if there is one.
    pub(crate) fn keep(&mut self) -> Result<(), TrialRefusal> {
        let decision = self.hand.take().ok_or(TrialRefusal::NoTrial)?;
        ended(self.plan.keep(decision));
        Ok(())
    }

    // Undoes the change on trial, if there is one.
    pub(crate) fn undo(&mut self) -> Result<(), TrialRefusal> {
        let decision = self.hand.take().ok_or(TrialRefusal::NoTrial)?;
        ended(self.plan.undo(decision));
        Ok(())
    }
}

impl<R: Representation + Drop> PlanInHand<R> {
    // Lets the plan go, and undoes a trial that is still open.
    pub(crate) fn close(self) {
        let PlanInHand { mut plan, hand } = self;
        if let Some(last) = hand {
            ended(plan.undo(last));
        }
    }
}
