// Packings with their numbers, the same in every kind of length.
use crate::kinds::Whole;
use closure_graphs::ClosureGraphs;
use lengths::Length;
use module_set::ModuleSet;
use packing::{Chip, Job, Pin, PinnedRefusal, Placed, Sides};
use plans::{Direction, Refusal};
use representations::Representation;
use std::array;

// A chip of this width, height and area.
fn is_chip<L: Length, E>(answer: &Result<Chip<L>, E>, width: u32, height: u32, area: u64) -> bool {
    answer.as_ref().is_ok_and(|chip| {
        chip.width.extent() == width && chip.height.extent() == height && chip.area == area
    })
}

// A packing with a pin that is refused by this number.
fn is_refused<L: Length>(answer: &Result<Chip<L>, PinnedRefusal>, number: u16) -> bool {
    answer
        .as_ref()
        .is_err_and(|refusal| refusal.number() == number)
}

// 0 left of 1, both below 2.
fn two_under_one() -> ClosureGraphs {
    let mut graphs = ClosureGraphs::new();
    let _ = graphs.load(&[0, 1, 2, 0, 0, 2, 0, 0, 0], &[0, 1, 2]);
    graphs
}

// 64 modules, each with an edge in this direction to every later one.
fn line_of(direction: Direction) -> ClosureGraphs {
    let mut graphs = ClosureGraphs::new();
    let code = u8::from(direction);
    let codes: [u8; 4096] = array::from_fn(|k| if k / 64 < k % 64 { code } else { 0 });
    let sequence: [usize; 64] = array::from_fn(|k| k);
    let _ = graphs.load(&codes, &sequence);
    graphs
}

// A job in which no module is rotated.
fn unrotated<'a, L>(
    representation: &'a ClosureGraphs,
    sides: &'a [Sides<L>],
) -> Job<'a, ClosureGraphs, L> {
    Job {
        representation,
        rotated: ModuleSet::empty(),
        sides,
    }
}

// Three modules packed, and with the last one rotated once more.
fn three<L: Whole>(sides: &[Sides<L>], results: &mut [Placed<L>]) -> bool {
    let plan = two_under_one();
    let job = unrotated(&plan, sides);
    is_chip(&job.pack(results), 7, 4, 28) && is_chip(&job.pack_with_rotation(results, 2), 7, 8, 56)
}

// No modules.
fn none<L: Whole>(results: &mut [Placed<L>]) -> bool {
    let plan = ClosureGraphs::new();
    is_chip(&unrotated(&plan, &[]).pack(results), 0, 0, 0)
}

// A module pinned at a place across, at the bottom.
fn pinned<L: Whole>(module: usize, across: u32) -> Pin<L> {
    Pin {
        module,
        across: L::whole(across),
        up: L::ZERO,
    }
}

// Pinned with room, where it is anyway, and too near.
fn pins<L: Whole>(sides: &[Sides<L>], results: &mut [Placed<L>]) -> bool {
    let plan = two_under_one();
    let job = unrotated(&plan, sides);
    is_chip(&job.pack_pinned(results, pinned(1, 6)), 9, 4, 36)
        && is_chip(&job.pack_pinned(results, pinned(1, 4)), 7, 4, 28)
        && is_refused(&job.pack_pinned(results, pinned(1, 3)), 45)
}

// A row and a column of 64 modules with the longest sides.
fn longest<L: Whole>(sides: &[Sides<L>], results: &mut [Placed<L>]) -> bool {
    let (row, column) = (line_of(Direction::Right), line_of(Direction::Above));
    let across = unrotated(&row, sides).pack(results);
    let up = unrotated(&column, sides).pack(results);
    is_chip(&across, 6_400_000, 100_000, 640_000_000_000)
        && is_chip(&up, 100_000, 6_400_000, 640_000_000_000)
}

// The first of the row pinned as far out as may be, with 63 modules behind it, and one farther.
fn farthest<L: Whole>(sides: &[Sides<L>], results: &mut [Placed<L>]) -> bool {
    let row = line_of(Direction::Right);
    let job = unrotated(&row, sides);
    is_chip(
        &job.pack_pinned(results, pinned(0, 3_600_000)),
        10_000_000,
        100_000,
        1_000_000_000_000,
    ) && is_refused(&job.pack_pinned(results, pinned(0, 3_600_001)), 44)
}

// All examples in one kind of length, by the sides of the three modules and by those of the 64.
pub fn all_hold<L: Whole>(few: &[Sides<L>], many: &[Sides<L>], results: &mut [Placed<L>]) -> bool {
    none(results)
        && three(few, results)
        && pins(few, results)
        && longest(many, results)
        && farthest(many, results)
}
