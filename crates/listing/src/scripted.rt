// A plan under the commands of a script: the call that each makes, with the decision on an open trial kept at hand.
ghost use Rattle.listing.specs.Deciding.{AtHand};
ghost use Rattle.listing.specs.LawOfRuns.{CountedRuns};
ghost use Rattle.planner.specs.Calls.{Steps};
ghost use Rattle.planner.specs.States.{state_of};
ghost use Rattle.std.specs.Prelude.{◌≡◌, IsOk};

use lengths::{Counted, OneKind};
use planner::{Decision, Plan, Undecided};
use plans::{Change, PlanChangeRefusal, TrialRefusal};
use representations::Representation;

// An end of a trial that is not refused. There is no `unwrap` here: a refusal holds a decision, which can't be let go.
fn ended(answer: Result<(), Undecided>)
    requires { IsOk answer }
{
    match answer {
        Ok(()) => {}
        Err(_) => unreachable!(),
    }
}

// The plan, and the decision on its trial if one is open. Keep and undo are apart: a closure for their one call would
// need three more clauses.
pub(crate) struct Scripted<R: Representation> {
    pub plan: Plan<R>,
    hand: Option<Decision>,
    ghost at_hand: { AtHand hand (state_of plan) },
}

impl<R: Representation> Scripted<R> {
    ghost use Rattle.plans.specs.Model.{made_of, model_change, model_keep, model_undo};

    // A plan over a representation as it is, under the law of runs that pack in counted lengths.
    pub fn new(representation: R) -> Scripted<R>
        ensures made { state_of result.plan ≡ made_of (R.Representation.means representation) }
        ensures law { CountedRuns (R.Representation.means representation) result.plan }
    {
        Scripted {
            plan: Plan::over::<OneKind<Counted>>(representation),
            hand: None,
        }
    }

    // Makes a change on trial and takes its decision to hand.
    pub fn change(&mut self, wanted: Change) -> Result<(), PlanChangeRefusal>
        ensures { Steps (model_change (state_of self.old.plan) wanted) (state_of self.new.plan) result }
    {
        let decision = self.plan.change(wanted)?;
        // No `unwrap` here either: what stood at hand would be a decision.
        match self.hand.replace(decision) {
            None => Ok(()),
            Some(_) => unreachable!(),
        }
    }

    // Keeps the change on trial, if there is one.
    pub fn keep(&mut self) -> Result<(), TrialRefusal>
        ensures { Steps (model_keep (state_of self.old.plan)) (state_of self.new.plan) result }
    {
        let decision = self.hand.take().ok_or(TrialRefusal::NoTrial)?;
        ended(self.plan.keep(decision));
        Ok(())
    }

    // Undoes the change on trial, if there is one.
    pub fn undo(&mut self) -> Result<(), TrialRefusal>
        ensures { Steps (model_undo (state_of self.old.plan)) (state_of self.new.plan) result }
    {
        let decision = self.hand.take().ok_or(TrialRefusal::NoTrial)?;
        ended(self.plan.undo(decision));
        Ok(())
    }

    // Undoes a trial that is still open, and gives the plan.
    pub fn close(self) -> Plan<R>
        ensures { state_of result ≡ (model_undo (state_of self.plan)).state }
    {
        let Scripted { mut plan, hand } = self;
        if let Some(last) = hand {
            ended(plan.undo(last));
        }
        plan
    }
}
