// Trials undone and kept over a representation of nothing but the acts, and over a layer on it.
use crate::Acts;
use crate::ending::{Ending, end};
use lengths::{OneKind, Plain};
use planner::Plan;
use plans::Change;
use representations::{Representation, Transposed};
use sequence_pairs::SequencePair;

// 0 left of 1 and 2, 1 below 2, all left of 3.
const CODES: [u8; 16] = [0, 1, 1, 1, 0, 0, 2, 1, 0, 0, 0, 1, 0, 0, 0, 0];

const SEQUENCE: [usize; 4] = [0, 1, 2, 3];

// Whether the plan has these codes, this sequence, and no open trial.
fn is_as_loaded<R: Representation>(plan: &Plan<R>) -> bool {
    let codes = (0..16).all(|k| plan.code(k / 4, k % 4) == CODES[k]);
    let sequence = (0..4).all(|k| plan.module_at(k) == Some(SEQUENCE[k]));
    codes && sequence && !plan.is_on_trial()
}

// Whether a change is done on trial, and the plan is as it was loaded once the trial has ended as told.
fn leaves_the_plan<R: Representation>(plan: &mut Plan<R>, change: Change, ending: Ending) -> bool {
    let Ok(decision) = plan.change(change) else {
        return false;
    };
    end::<R, OneKind<Plain>>(plan, decision, ending);
    is_as_loaded(plan)
}

// Each change undone, and a load after a trial that was kept.
fn is_well<R: Representation + Drop>(mut plan: Plan<R>) -> bool {
    let loaded = plan.load(&CODES, &SEQUENCE).is_ok() && is_as_loaded(&plan);
    let rotated = leaves_the_plan(&mut plan, Change::Rotate(3), Ending::Undo);
    let swapped = leaves_the_plan(&mut plan, Change::Swap(0, 3), Ending::Undo);
    let reversed = leaves_the_plan(&mut plan, Change::Reverse(0, 1), Ending::Undo);
    let moved = leaves_the_plan(&mut plan, Change::MoveEdge(1, 2), Ending::Undo);
    let kept = !leaves_the_plan(&mut plan, Change::Swap(0, 1), Ending::Keep);
    let again = plan.module_at(0) == Some(1) && plan.load(&CODES, &SEQUENCE).is_ok();
    loaded && rotated && swapped && reversed && moved && kept && again && is_as_loaded(&plan)
}

#[test]
fn acts_alone(rt: HostRuntime) {
    assert!(rt; is_well(Plan::new(Acts(SequencePair::new()))));
}

#[test]
fn layer_on_the_acts(rt: HostRuntime) {
    assert!(rt; is_well(Plan::new(Transposed(Acts(SequencePair::new())))));
}

#[test]
fn acts_of_a_layer(rt: HostRuntime) {
    assert!(rt; is_well(Plan::new(Acts(Transposed(SequencePair::new())))));
}
