// The sample run on three modules: 0 left of 1, both below 2.
use crate::{Sample, Tried, Wanted, sample_run, two_calls};
use lengths::{Counted, Length, Plain};
use packing::{Pin, unplaced};
use plans::{Change, Chip, Placed, Refusal, Sides};
use sequence_pairs::SequencePair;

const CODES: [u8; 9] = [0, 1, 2, 0, 0, 2, 0, 0, 0];

const PLAIN_SIDES: [Sides<Plain>; 3] = [
    Sides {
        width: Plain(4),
        height: Plain(2),
    },
    Sides {
        width: Plain(3),
        height: Plain(3),
    },
    Sides {
        width: Plain(5),
        height: Plain(1),
    },
];

// A counted length with one border.
fn counted(length: u32) -> Counted {
    Counted::new(length, 1).unwrap_or(Counted::ZERO)
}

// The same sides in counted lengths.
fn counted_sides() -> [Sides<Counted>; 3] {
    PLAIN_SIDES.map(|sides| Sides {
        width: counted(sides.width.0),
        height: counted(sides.height.0),
    })
}

// The calls, with module 1 pinned at 4 across, module 2 rotated once more, and questions about 0 and 2.
fn wanted(counts: &[Sides<Counted>], kept: Change, undone: Change) -> Wanted<'_, Plain, Counted> {
    Wanted {
        codes: &CODES,
        sequence: &[0, 1, 2],
        sides: &PLAIN_SIDES,
        counts,
        kept,
        blocked: Change::Swap(0, 1),
        undone,
        pin: Pin {
            module: 1,
            across: counted(4),
            up: Counted::ZERO,
        },
        looked: 2,
        asked: 0,
    }
}

// A chip of this width, height and area.
fn is_chip<L: Length, E>(answer: &Result<Chip<L>, E>, width: u32, height: u32, area: u64) -> bool {
    answer.as_ref().is_ok_and(|chip| {
        chip.width.extent() == width && chip.height.extent() == height && chip.area == area
    })
}

// The number of a refusal, none where the call is done.
fn refusal<T, E: Refusal + Copy>(answer: &Result<T, E>) -> Option<u16> {
    answer.as_ref().err().map(|refusal| refusal.number())
}

// A placed module's edges.
fn is_placed<L: Length>(module: &Placed<L>, left: u32, bottom: u32, right: u32, top: u32) -> bool {
    module.left.extent() == left
        && module.bottom.extent() == bottom
        && module.right.extent() == right
        && module.top.extent() == top
}

// With module 0 rotated on trial, it is 2 wide and 4 high: 2 lies above 4, and 1 at the pin ends at 7 across; with 2
// rotated once more, 1 ends at 5 across, and 2 at 9 up.
fn is_tried_well(tried: &Tried<Plain, Counted>) -> bool {
    is_chip(&tried.pinned, 7, 5, 35)
        && is_chip(&tried.once_more, 5, 9, 45)
        && tried.asked.code == 2
        && tried.asked.rotated
        && tried.asked.on_trial
        && refusal(&tried.blocked.load) == Some(20)
        && tried.blocked.change.number() == 20
}

// The plan is loaded and settled, and this says whether module 0 is rotated.
fn is_settled(sample: &Sample, rotated: bool) -> bool {
    sample.plan.modules() == 3
        && sample.plan.code(0, 1) == 1
        && sample.plan.code(1, 2) == 2
        && sample.plan.module_at(0) == Some(0)
        && sample.plan.is_rotated(0) == rotated
        && !sample.plan.is_on_trial()
}

// The sample run with these two changes, and its lists after it.
#[derive(Drop)]
struct SampleRun {
    sample: Sample,
    plain: [Placed<Plain>; 3],
    pinned: [Placed<Counted>; 3],
    rotated: [Placed<Plain>; 3],
}

// Runs it, with this list for the last packing.
fn run_sample(kept: Change, undone: Change, last: &mut [Placed<Plain>]) -> SampleRun {
    let counts = counted_sides();
    let wanted = wanted(&counts, kept, undone);
    let (mut plain, mut rotated) = ([unplaced(); 3], [unplaced(); 3]);
    let mut pinned = [unplaced(); 3];
    let sample = sample_run(&wanted, &mut plain, &mut pinned, &mut rotated, last);
    SampleRun {
        sample,
        plain,
        pinned,
        rotated,
    }
}

// Module 0 is rotated and kept so, a swap is undone, and a list of two is too short.
#[test]
fn changes_are_done(rt: HostRuntime) {
    let run = run_sample(Change::Rotate(0), Change::Swap(0, 2), &mut [unplaced(); 2]);
    assert!(rt; run.sample.loaded.is_ok() && is_chip(&run.sample.packed, 7, 4, 28));
    assert!(rt; is_placed(&run.plain[1], 4, 0, 7, 3) && is_placed(&run.plain[2], 0, 3, 5, 4));
    assert!(rt; run.sample.tried.as_ref().is_ok_and(is_tried_well));
    assert!(rt; is_placed(&run.pinned[1], 4, 0, 7, 3) && is_placed(&run.pinned[2], 0, 4, 5, 5));
    assert!(rt; is_placed(&run.rotated[1], 2, 0, 5, 3) && is_placed(&run.rotated[2], 0, 4, 1, 9));
    assert!(rt; run.sample.undone.is_ok() && refusal(&run.sample.short) == Some(41));
    assert!(rt; is_settled(&run.sample, true));
}

// Two changes that the floorplan refuses: the same module twice, and an edge that is none.
#[test]
fn changes_are_refused(rt: HostRuntime) {
    let run = run_sample(
        Change::Swap(1, 1),
        Change::Reverse(2, 0),
        &mut [unplaced(); 3],
    );
    assert!(rt; refusal(&run.sample.tried) == Some(22) && refusal(&run.sample.undone) == Some(23));
    assert!(rt; is_placed(&run.pinned[1], 0, 0, 0, 0) && is_placed(&run.rotated[2], 0, 0, 0, 0));
    assert!(rt; is_chip(&run.sample.packed, 7, 4, 28) && is_chip(&run.sample.short, 7, 4, 28));
    assert!(rt; is_settled(&run.sample, false));
}

// In counted lengths, without a layer.
#[test]
fn new_plan_is_packed(rt: HostRuntime) {
    let mut results = [unplaced(); 3];
    let run = two_calls(
        SequencePair::new(),
        &CODES,
        &[0, 1, 2],
        &counted_sides(),
        &mut results,
    );
    assert!(rt; run.loaded.is_ok() && is_chip(&run.packed, 7, 4, 28));
    assert!(rt; is_placed(&results[1], 4, 0, 7, 3) && is_placed(&results[2], 0, 3, 5, 4));
}
