// The law of plans over whole runs of their calls.
ghost use Rattle.planner.specs.RunLaw.{PlanLaw};

use plans::Family;
use representations::Representation;

/// The law of every plan that is as its making left it, over this representation, in a family of kinds of length: what
/// a plan that `Plan::new` made may rest on.
pub fn plan_law<R: Representation, F: Family>()
    ensures { PlanLaw F.Family.kind_of R.Representation }
{}
