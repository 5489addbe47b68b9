// Rounds over the cases of a task in turn, each over the representation or the plan that has its case.
use crate::cases::{Case, MODULES};
use lengths::Plain;
use module_set::ModuleSet;
use packing::{Job, Placed, unplaced};
use planner::Plan;
use plans::Change;
use representations::Representation;

// What is done in a round with a bare representation.
#[derive(Clone, Copy)]
pub(crate) enum Round {
    // a reverse or a move, and a load of the old floorplan
    Change,
    // a packing
    Packing,
    // a load
    Load,
}

impl Round {
    // The round of a number; none where no round has it.
    pub(crate) fn of(number: u8) -> Option<Round> {
        match number {
            0 => Some(Round::Change),
            1 => Some(Round::Packing),
            2 => Some(Round::Load),
            _ => None,
        }
    }
}

// Whether the change of a turn and the load after it are done.
fn is_changed<R: Representation>(r: &mut R, case: &Case<'_>, turn: usize) -> bool {
    let changed = match case.change(turn) {
        Change::Reverse(a, b) => r.reverse(a, b),
        Change::MoveEdge(a, b) => r.move_edge(a, b),
        _ => Ok(()),
    };
    changed.is_ok() && is_loaded(r, case)
}

// Whether the load of a case is done.
fn is_loaded<R: Representation>(r: &mut R, case: &Case<'_>) -> bool {
    r.load(case.codes(), case.sequence()).is_ok()
}

// The area of the chip that a packing answers.
fn packed_area<R: Representation>(r: &R, case: &Case<'_>, results: &mut [Placed<Plain>]) -> u64 {
    let job = Job {
        representation: r,
        rotated: ModuleSet::empty(),
        sides: case.sides(),
    };
    job.pack(results).map_or(0, |chip| chip.area)
}

// The area of the chip with the change of a turn, which is undone.
fn tried_area<R: Representation>(
    plan: &mut Plan<R>,
    case: &Case<'_>,
    turn: usize,
    results: &mut [Placed<Plain>],
) -> u64 {
    let Ok(decision) = plan.change(case.change(turn)) else {
        return 0;
    };
    let area = plan.pack(case.sides(), results).map_or(0, |chip| chip.area);
    // No `unwrap`: a refusal would hold a decision, which can't be let go.
    match plan.undo(decision) {
        Ok(()) => area,
        Err(_) => unreachable!(),
    }
}

// Rounds over bare representations.
pub(crate) fn bare_rounds<R: Representation>(
    round: Round,
    all: &mut [R],
    cases: &[Case<'_>],
    turns: usize,
) -> u64 {
    for (r, case) in all.iter_mut().zip(cases) {
        let _ = is_loaded(r, case);
    }
    let mut results = [unplaced(); MODULES];
    let mut sum = 0u64;
    for turn in 0..turns {
        for (r, case) in all.iter_mut().zip(cases) {
            let answer = match round {
                Round::Change => u64::from(is_changed(r, case, turn)),
                Round::Load => u64::from(is_loaded(r, case)),
                Round::Packing => packed_area(r, case, &mut results),
            };
            sum = sum.wrapping_add(answer);
        }
    }
    sum
}

// Rounds of trials over plans.
pub(crate) fn trial_rounds<R: Representation>(
    all: &mut [Plan<R>],
    cases: &[Case<'_>],
    turns: usize,
) -> u64 {
    for (plan, case) in all.iter_mut().zip(cases) {
        let _ = plan.load(case.codes(), case.sequence());
    }
    let mut results = [unplaced(); MODULES];
    let mut sum = 0u64;
    for turn in 0..turns {
        for (plan, case) in all.iter_mut().zip(cases) {
            sum = sum.wrapping_add(tried_area(plan, case, turn, &mut results));
        }
    }
    sum
}
