// Calls while a change is on trial.
ghost use Rattle.std.specs.Prelude.{◌≡◌, true, is_some, IsErr, Err};
ghost use Rattle.lengths.specs.Families.{two_kinds};
ghost use Rattle.planner.specs.PlanRuns.{Run};
ghost use Rattle.planner.specs.States.{state_of};
ghost use Rattle.plan_tests.specs.SampleRuns.{blocked_told, tried_told};

use crate::asked::{Asked, ask};
use crate::ending::{Ending, end};
use crate::wanted::Wanted;
use lengths::{Length, TwoKinds};
use planner::{Decision, Plan};
use plans::{
    Change, Chip, Family, PinnedRefusal, Placed, PlanChangeRefusal, PlanLoadRefusal,
    RotationRefusal,
};
use representations::Representation;

/// What a load and another change were answered while a change was on trial: the other is refused.
#[derive(Clone, Copy)]
pub struct Blocked {
    pub load: Result<(), PlanLoadRefusal>,
    pub change: PlanChangeRefusal,
}

/// What was answered while a change was on trial.
#[derive(Clone, Copy)]
pub struct Tried<L, M> {
    pub pinned: Result<Chip<M>, PinnedRefusal>,
    pub once_more: Result<Chip<L>, RotationRefusal>,
    pub asked: Asked,
    pub blocked: Blocked,
}

// A change that is refused. A change that is done would have handed out a decision, which can't be let go.
fn refusal_of(answer: Result<Decision, PlanChangeRefusal>) -> PlanChangeRefusal
    requires { IsErr answer }
    ensures { answer ≡ Err result }
{
    match answer {
        Ok(_) => unreachable!(),
        Err(refusal) => refusal,
    }
}

// A load and another change during a trial.
fn block<R: Representation, F: Family>(
    plan: &mut Plan<R>,
    codes: &[u8],
    sequence: &[usize],
    change: Change,
) -> Blocked
    requires { is_some (state_of plan.old).noted ≡ true }
    ensures run { Run F.Family.kind_of plan.old (blocked_told codes.now sequence.now change result) plan.new }
    ensures leaves { state_of plan.new ≡ state_of plan.old }
{
    let load = plan.load(codes, sequence);
    let changed = plan.change(change);
    Blocked {
        load,
        change: refusal_of(changed),
    }
}

// Tries a change: packs with a pin and with a module rotated once more, asks, is refused a load and another change, and
// keeps it.
pub(crate) fn try_and_keep<R: Representation, L: Length, M: Length>(
    plan: &mut Plan<R>,
    wanted: &Wanted<'_, L, M>,
    pinned_list: &mut [Placed<M>],
    rotated_list: &mut [Placed<L>],
) -> Result<Tried<L, M>, PlanChangeRefusal>
    ensures { Run (two_kinds L.Length.kind M.Length.kind) plan.old (tried_told wanted.now pinned_list.old pinned_list.new rotated_list.old rotated_list.new result) plan.new }
{
    let decision = plan.change(wanted.kept)?;
    let pinned = plan.pack_pinned(wanted.counts, pinned_list, wanted.pin);
    let once_more = plan.pack_with_rotation(wanted.sides, rotated_list, wanted.looked);
    let asked = ask::<R, TwoKinds<L, M>>(plan, wanted.asked, wanted.looked);
    let blocked = block::<R, TwoKinds<L, M>>(plan, wanted.codes, wanted.sequence, wanted.blocked);
    end::<R, TwoKinds<L, M>>(plan, decision, Ending::Keep);
    Ok(Tried {
        pinned,
        once_more,
        asked,
        blocked,
    })
}
