// Questions to a plan.
ghost use Rattle.planner.specs.PlanRuns.{Run};
ghost use Rattle.plan_tests.specs.SampleRuns.{asked_told};

use planner::Plan;
use plans::Family;
use representations::Representation;

/// What a plan told of two modules: their code, whether the first is rotated, and whether a trial is open.
#[derive(Clone, Copy)]
pub struct Asked {
    pub code: u8,
    pub rotated: bool,
    pub on_trial: bool,
}

// Asks it.
pub(crate) fn ask<R: Representation, F: Family>(plan: &Plan<R>, i: usize, j: usize) -> Asked
    ensures { Run F.Family.kind_of plan.now (asked_told i j result) plan.now }
{
    Asked {
        code: plan.code(i, j),
        rotated: plan.is_rotated(i),
        on_trial: plan.is_on_trial(),
    }
}
