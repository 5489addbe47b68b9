// Running a script at a plan, call by call.
ghost use Rattle.std.specs.Prelude.{◌≤◌};
ghost use Rattle.surymoa_c.specs.declared.script.TheConstants.{ROOM};

use crate::answers::{AnswerWords, PackingTold};
use crate::bytes::Bytes;
use crate::calls::{Calls, ScriptCall};
use crate::cases::{MODULES, no_sides};
use crate::trial::PlanInHand;
use lengths::{Plain, Sides};
use packing::{Placed, unplaced};
use planner::Plan;
use representations::Representation;

// One more than there can be modules, so that lists can be too long and questions be asked of no module.
const ROOM: usize = MODULES + 1;

// The most modules that one byte can count.
const LONGEST_SEQUENCE: usize = 255;

// The sides that packings are given.
#[derive(Drop)]
struct SideList {
    sides: [Sides<Plain>; ROOM],
    count: usize,
    ghost within: { count ≤ ROOM },
}

impl SideList {
    // The sides of no modules.
    fn empty() -> SideList {
        SideList {
            sides: [no_sides(); ROOM],
            count: 0,
        }
    }

    // As many of the sides that are told as there is room for.
    fn told(told: &[u8]) -> SideList {
        let mut bytes = Bytes(told);
        let mut sides = [no_sides(); ROOM];
        for count in 0..ROOM {
            let Some(next) = bytes.sides() else {
                return SideList { sides, count };
            };
            sides[count] = next;
        }
        SideList { sides, count: ROOM }
    }

    // The sides that are told.
    fn all(&self) -> &[Sides<Plain>] {
        &self.sides[..self.count]
    }
}

// A list of results of so many places, or of all where there are fewer.
fn first_places(results: &mut [Placed<Plain>], places: usize) -> &mut [Placed<Plain>] {
    let places = places.min(results.len());
    &mut results[..places]
}

// Makes one call and writes what it answers; the sides of a packing are no call.
fn perform<R: Representation>(
    held: &mut PlanInHand<R>,
    sides: &mut SideList,
    results: &mut [Placed<Plain>],
    call: ScriptCall<'_>,
    answers: &mut AnswerWords<'_>,
) {
    match call {
        ScriptCall::Load(codes, sequence) => perform_load(held, codes, sequence, answers),
        ScriptCall::Change(change) => answers.put_answer(held.change(change)),
        ScriptCall::Keep => answers.put_answer(held.keep()),
        ScriptCall::Undo => answers.put_answer(held.undo()),
        ScriptCall::Sides(told) => *sides = SideList::told(told),
        ScriptCall::Pack(places) => {
            let results = first_places(results, places);
            let answer = held.plan.pack(sides.all(), results);
            answers.put_packed(answer.map_err(PackingTold::of_pack), results);
        }
        ScriptCall::PackPinned(places, pin) => {
            let results = first_places(results, places);
            let answer = held.plan.pack_pinned(sides.all(), results, pin);
            answers.put_packed(answer.map_err(PackingTold::of_pinned), results);
        }
        ScriptCall::PackWithRotation(places, module) => {
            let results = first_places(results, places);
            let answer = held.plan.pack_with_rotation(sides.all(), results, module);
            answers.put_packed(answer.map_err(PackingTold::of_rotation), results);
        }
        ScriptCall::Show => show(&held.plan, answers),
    }
}

// A load of a sequence that is told in bytes.
fn perform_load<R: Representation>(
    held: &mut PlanInHand<R>,
    codes: &[u8],
    told: &[u8],
    answers: &mut AnswerWords<'_>,
) {
    let mut sequence = [0; LONGEST_SEQUENCE];
    for (place, &module) in sequence.iter_mut().zip(told) {
        *place = usize::from(module);
    }
    let size = told.len().min(LONGEST_SEQUENCE);
    answers.put_load(held.load(codes, &sequence[..size]));
}

// Asks all questions, of one module and one place more than there can be too.
fn show<R: Representation>(plan: &Plan<R>, answers: &mut AnswerWords<'_>) {
    answers.put(plan.modules() as u64);
    answers.put(u64::from(plan.is_on_trial()));
    for i in 0..ROOM {
        for j in 0..ROOM {
            answers.put(u64::from(plan.code(i, j)));
        }
        answers.put(plan.module_at(i).map_or(u64::MAX, |module| module as u64));
        answers.put(u64::from(plan.is_rotated(i)));
    }
}

// Makes the calls of a script at a plan over a representation, and writes their answers.
pub(crate) fn run_script<R: Representation + Drop>(
    representation: R,
    script: &[u8],
    answers: &mut AnswerWords<'_>,
) {
    let mut held = PlanInHand::new(representation);
    let mut sides = SideList::empty();
    let mut results = [unplaced(); ROOM];
    for call in Calls(Bytes(script)) {
        perform(&mut held, &mut sides, &mut results, call, answers);
    }
    held.close();
}
