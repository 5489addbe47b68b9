// Loads, changes and refusals that every representation answers alike.
use plans::Refusal;
use representations::Representation;
use std::array;

// 0 left of 1, both below 2.
const CODES: [u8; 9] = [0, 1, 2, 0, 0, 2, 0, 0, 0];

// The number of a call's refusal, none where it is done.
fn refusal<E: Refusal + Copy>(answer: Result<(), E>) -> Option<u16> {
    answer.err().map(|refusal| refusal.number())
}

// No modules, and one.
pub fn smallest<R: Representation>(r: &mut R) -> bool {
    let none = r.load(&[], &[]).is_ok() && r.modules() == 0 && r.module_at(0).is_none();
    let one = r.load(&[0], &[0]).is_ok() && r.modules() == 1 && r.code(0, 0) == 0;
    none && one && r.code(1, 0) == 0 && r.module_at(1).is_none()
}

// Each refusal of a load, which leaves what was loaded before.
pub fn refused_loads<R: Representation>(r: &mut R) -> bool {
    let first = r.load(&CODES, &[0, 1, 2]).is_ok();
    let shape = refusal(r.load(&[0, 1], &[0, 1])) == Some(10);
    let code = refusal(r.load(&[0, 3, 0, 0], &[0, 1])) == Some(11);
    let itself = refusal(r.load(&[1, 1, 0, 0], &[0, 1])) == Some(12);
    let edges = refusal(r.load(&[0, 0, 0, 0], &[0, 1])) == Some(13);
    let closed = refusal(r.load(&[0, 1, 2, 0, 0, 1, 0, 0, 0], &[0, 1, 2])) == Some(14);
    let place = refusal(r.load(&CODES, &[0, 1, 1])) == Some(15);
    let backwards = refusal(r.load(&CODES, &[1, 0, 2])) == Some(16);
    let kept = r.modules() == 3 && r.code(0, 1) == 1 && r.code(1, 2) == 2 && r.code(2, 1) == 0;
    first && shape && code && itself && edges && closed && place && backwards && kept
}

// Each refusal of a change.
pub fn refused_changes<R: Representation>(r: &mut R) -> bool {
    let loaded = r.load(&[0, 1, 1, 0, 0, 1, 0, 0, 0], &[0, 1, 2]).is_ok();
    let module = refusal(r.swap(0, 3)) == Some(21) && refusal(r.reverse(3, 0)) == Some(21);
    let same = refusal(r.swap(1, 1)) == Some(22) && refusal(r.move_edge(2, 2)) == Some(22);
    let edge = refusal(r.reverse(1, 0)) == Some(23) && refusal(r.move_edge(2, 0)) == Some(23);
    let reduction = refusal(r.reverse(0, 2)) == Some(24) && refusal(r.move_edge(0, 2)) == Some(24);
    loaded && module && same && edge && reduction && r.code(0, 2) == 1
}

// A swap, a reverse that takes a module along, and a move that does.
pub fn changes<R: Representation>(r: &mut R) -> bool {
    let swap = r.load(&CODES, &[0, 1, 2]).is_ok() && r.swap(0, 2).is_ok();
    let swapped = r.code(2, 1) == 1
        && r.code(2, 0) == 2
        && r.code(1, 0) == 2
        && r.module_at(0) == Some(2);
    let reverse = r.load(&[0, 1, 2, 0, 0, 0, 0, 1, 0], &[0, 2, 1]).is_ok()
        && r.reverse(0, 1).is_ok();
    let reversed = r.code(1, 0) == 1
        && r.code(2, 1) == 1
        && r.code(2, 0) == 1
        && r.module_at(2) == Some(0);
    let moving = r.load(&[0, 1, 0, 0, 0, 0, 2, 1, 0], &[2, 0, 1]).is_ok()
        && r.move_edge(0, 1).is_ok();
    let moved = r.code(0, 1) == 2
        && r.code(2, 1) == 2
        && r.code(2, 0) == 2
        && r.module_at(0) == Some(2);
    swap && swapped && reverse && reversed && moving && moved
}

// The codes of 64 modules in one row.
fn row_codes() -> [u8; 4096] {
    array::from_fn(|k| u8::from(k / 64 < k % 64))
}

// 64 modules in one row, and 65.
pub fn largest<R: Representation>(r: &mut R) -> bool {
    let row = r
        .load(&row_codes(), &array::from_fn::<usize, 64, _>(|k| k))
        .is_ok();
    let whole = r.modules() == 64 && r.code(0, 63) == 1;
    let turned = r.reverse(62, 63).is_ok() && r.module_at(63) == Some(62);
    row && whole
        && turned
        && refusal(r.load(&[0; 4225], &[0; 65])) == Some(10)
        && r.code(63, 62) == 1
}
