// A run of a plan over a layer, with packings in two kinds of length.
ghost use Rattle.planner.specs.PlanRuns.{Run};
ghost use Rattle.plan_tests.specs.SampleRuns.{undone_told, SampleKept};

use crate::ending::{Ending, end};
use crate::trial::{Tried, try_and_keep};
use crate::wanted::Wanted;
use lengths::{Counted, Plain, TwoKinds};
use planner::Plan;
use plans::{Change, Chip, Family, PackRefusal, Placed, PlanChangeRefusal, PlanLoadRefusal};
use representations::{Representation, Transposed};
use sequence_pairs::SequencePair;

/// The plan at the end of the sample run, and what each call was answered.
#[derive(Drop)]
pub struct Sample {
    pub plan: Plan<Transposed<SequencePair>>,
    pub loaded: Result<(), PlanLoadRefusal>,
    pub packed: Result<Chip<Plain>, PackRefusal>,
    pub tried: Result<Tried<Plain, Counted>, PlanChangeRefusal>,
    pub undone: Result<(), PlanChangeRefusal>,
    pub short: Result<Chip<Plain>, PackRefusal>,
}

// Tries a change and undoes it, if it is done.
fn try_and_undo<R: Representation, F: Family>(
    plan: &mut Plan<R>,
    change: Change,
) -> Result<(), PlanChangeRefusal>
    ensures { Run F.Family.kind_of plan.old (undone_told change result) plan.new }
{
    let decision = plan.change(change)?;
    end::<R, F>(plan, decision, Ending::Undo);
    Ok(())
}

/// Makes a plan over a layer, loads it and packs it in plain lengths; tries a change and keeps it, with packings in both
/// kinds of length meanwhile; tries another and undoes it; and packs into a list that may be too short. The law of the
/// plan's runs holds of exactly what the calls answered, whatever is handed in.
pub fn sample_run(
    wanted: &Wanted<'_, Plain, Counted>,
    plain_list: &mut [Placed<Plain>],
    pinned_list: &mut [Placed<Counted>],
    rotated_list: &mut [Placed<Plain>],
    short_list: &mut [Placed<Plain>],
) -> Sample
    ensures { SampleKept wanted.now plain_list.old plain_list.new pinned_list.old pinned_list.new rotated_list.old rotated_list.new short_list.old short_list.new result }
{
    let mut plan = Plan::over::<TwoKinds<Plain, Counted>>(Transposed(SequencePair::new()));
    let loaded = plan.load(wanted.codes, wanted.sequence);
    let packed = plan.pack(wanted.sides, plain_list);
    let tried = try_and_keep(&mut plan, wanted, pinned_list, rotated_list);
    let undone = try_and_undo::<_, TwoKinds<Plain, Counted>>(&mut plan, wanted.undone);
    let short = plan.pack(wanted.sides, short_list);
    Sample {
        plan,
        loaded,
        packed,
        tried,
        undone,
        short,
    }
}
