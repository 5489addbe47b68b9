// The plan over a representation, and its making.
ghost use Rattle.plans.specs.ModelLaw.{RotatesWithin};
ghost use Rattle.planner.specs.Layouts.{state_in};

use crate::current::Current;
use crate::noted::Noted;
use module_set::ModuleSet;
use plans::Family;
use representations::Representation;
use std::marker::Brand;

/// A plan: what is current, and what was current before an open trial. In both only modules are rotated.
#[derive(Drop)]
pub struct Plan<R: Representation> {
    pub(crate) current: Current<R>,
    pub(crate) trial: Option<Noted>,
    ghost rotations: { RotatesWithin (state_in R.Representation.means current trial) },
}

impl<R: Representation> Plan<R> {
    ghost use Rattle.planner.specs.Calls.{Makes};
    ghost use Rattle.planner.specs.RunLaw.{RunLaw};

    /// A plan over a representation as it is: no module is rotated, and no trial is open. It comes with no law of its
    /// runs; `plan_law` gives it, in any family of kinds.
    pub fn new(representation: R) -> Plan<R>
        ensures { Makes (R.Representation.means representation) result }
    {
        Plan::over::<Brand>(representation)
    }

    /// The same, with the law of its runs in a family of kinds of length, if these are lawful, which each kind is by
    /// `Length`'s law `lawful`. Whatever is called of the plan from then on, in any number and order, accepted or refused,
    /// with packings in any of these kinds: it stays a floorplan as published, each packing shows the least placement,
    /// and the plan, every answer and every result list are those of the model.
    pub fn over<F: Family>(representation: R) -> Plan<R>
        ensures made { Makes (R.Representation.means representation) result }
        ensures law { RunLaw F.Family.kind_of (R.Representation.means representation) result }
    {
        Plan {
            current: Current {
                representation,
                rotated: ModuleSet::empty(),
            },
            trial: None,
        }
    }
}
