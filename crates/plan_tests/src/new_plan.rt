// A load and a packing of a new plan, over any representation and in any kind of length.
ghost use Rattle.lengths.specs.Families.{one_kind};
ghost use Rattle.plans.specs.RunKept.{RunKept};
ghost use Rattle.planner.specs.States.{state_of};
ghost use Rattle.plan_tests.specs.SampleRuns.{load_and_pack_told};

use lengths::{Length, OneKind};
use planner::{Plan, plan_law};
use plans::{Chip, PackRefusal, Placed, PlanLoadRefusal, Sides};
use representations::Representation;

/// The plan after the two calls, and what they were answered.
#[derive(Drop)]
pub struct TwoCalls<R: Representation, L> {
    pub plan: Plan<R>,
    pub loaded: Result<(), PlanLoadRefusal>,
    pub packed: Result<Chip<L>, PackRefusal>,
}

/// Makes a plan, loads it and packs it. The law of the runs of a new plan holds of what the two calls answered.
pub fn two_calls<R: Representation, L: Length>(
    representation: R,
    codes: &[u8],
    sequence: &[usize],
    sides: &[Sides<L>],
    results: &mut [Placed<L>],
) -> TwoCalls<R, L>
    ensures { RunKept (one_kind L.Length.kind) (R.Representation.means representation) (load_and_pack_told codes.now sequence.now sides.now results.old results.new result) (state_of result.plan) }
{
    plan_law::<R, OneKind<L>>();
    let mut plan = Plan::new(representation);
    let loaded = plan.load(codes, sequence);
    let packed = plan.pack(sides, results);
    TwoCalls {
        plan,
        loaded,
        packed,
    }
}
