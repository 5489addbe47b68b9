// How a trial ends.
ghost use Rattle.std.specs.Prelude.{◌≡◌, true, is_some, IsOk};
ghost use Rattle.planner.specs.PlanRuns.{Run};
ghost use Rattle.planner.specs.States.{state_of};
ghost use Rattle.plan_tests.specs.SampleRuns.{end_told};

use planner::{Decision, Plan, Undecided};
use plans::Family;
use representations::Representation;

// What is made of the change on trial.
#[derive(Clone, Copy)]
pub(crate) enum Ending {
    Keep,
    Undo,
}

// There is no `unwrap` here: a refusal holds a decision, which can't be let go.
fn ended(answer: Result<(), Undecided>)
    requires { IsOk answer }
{
    match answer {
        Ok(()) => {}
        Err(_) => unreachable!(),
    }
}

// Ends the trial that is open.
pub(crate) fn end<R: Representation, F: Family>(
    plan: &mut Plan<R>,
    decision: Decision,
    ending: Ending,
)
    requires { is_some (state_of plan.old).noted ≡ true }
    ensures { Run F.Family.kind_of plan.old (end_told ending) plan.new }
{
    match ending {
        Ending::Keep => ended(plan.keep(decision)),
        Ending::Undo => ended(plan.undo(decision)),
    }
}
