// The plans and runs worked by hand, as a theorem about the definitions.
ghost use Rattle.plans.specs.Worked.{WorkedPlans};
ghost use Rattle.plans.specs.WorkedRuns.{WorkedRuns};

// The definitions give every number of the plans and every answer of the runs worked by hand.
pub fn worked_plans()
    ensures plans { WorkedPlans }
    ensures runs { WorkedRuns }
{}
