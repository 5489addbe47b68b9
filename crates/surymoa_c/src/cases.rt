// The cases that rounds go over: floorplans with sides, and with changes that each of them accepts.
ghost use Rattle.std.specs.Prelude.{◌≤◌, ◌≡◌, length};
ghost use Rattle.surymoa_c.specs.declared.cases.TheConstants.{MODULES};

use crate::bytes::Bytes;
use crate::calls::read_change;
use lengths::{Plain, Sides};
use plans::Change;

// The most modules that a floorplan has.
pub(crate) const MODULES: usize = 64;

// How many cases a task has.
pub(crate) const CASES: usize = 64;

// How many changes a case has.
const CHANGES: usize = 16;

// A floorplan as a load takes it, the sides of its modules, and some changes. The lists have room for the most modules.
#[derive(Clone, Copy)]
pub(crate) struct Case<'a> {
    size: usize,
    codes: &'a [u8],
    sequence: [usize; MODULES],
    sides: [Sides<Plain>; MODULES],
    changes: [Change; CHANGES],
    ghost few: { size ≤ MODULES },
}

impl<'a> Case<'a> {
    // The case of no modules.
    fn empty() -> Case<'a> {
        Case {
            size: 0,
            codes: &[],
            sequence: [0; MODULES],
            sides: [no_sides(); MODULES],
            changes: [Change::Rotate(0); CHANGES],
        }
    }

    // The next case of so many modules: codes, sequence, width and height of each module, changes.
    fn read(bytes: &mut Bytes<'a>, size: usize) -> Option<Case<'a>> {
        if size > MODULES {
            return None;
        }
        Some(Case {
            size,
            codes: bytes.several(size * size)?,
            sequence: read_sequence(bytes, size)?,
            sides: read_sides(bytes, size)?,
            changes: read_changes(bytes)?,
        })
    }

    // The code of each two modules, row by row.
    pub(crate) fn codes(&self) -> &'a [u8] {
        self.codes
    }

    // The modules in their order.
    pub(crate) fn sequence(&self) -> &[usize] {
        &self.sequence[..self.size]
    }

    // Width and height of each module.
    pub(crate) fn sides(&self) -> &[Sides<Plain>] {
        &self.sides[..self.size]
    }

    // The change of a turn.
    pub(crate) fn change(&self, turn: usize) -> Change {
        self.changes[turn % CHANGES]
    }
}

// The modules of a sequence.
fn read_sequence(bytes: &mut Bytes<'_>, size: usize) -> Option<[usize; MODULES]> {
    let mut sequence = [0; MODULES];
    for module in sequence.iter_mut().take(size) {
        *module = bytes.count()?;
    }
    Some(sequence)
}

// Width and height of each module.
fn read_sides(bytes: &mut Bytes<'_>, size: usize) -> Option<[Sides<Plain>; MODULES]> {
    let mut all = [no_sides(); MODULES];
    for sides in all.iter_mut().take(size) {
        *sides = bytes.sides()?;
    }
    Some(all)
}

// What stands where no sides are told yet.
pub(crate) fn no_sides() -> Sides<Plain> {
    Sides {
        width: Plain(0),
        height: Plain(0),
    }
}

// All changes of a case.
fn read_changes(bytes: &mut Bytes<'_>) -> Option<[Change; CHANGES]> {
    let mut changes = [Change::Rotate(0); CHANGES];
    for change in changes.iter_mut() {
        let word = bytes.byte()?;
        *change = read_change(bytes, word)?;
    }
    Some(changes)
}

// The cases of a task.
#[derive(Clone, Copy)]
pub(crate) struct Cases<'a> {
    pub(crate) all: [Case<'a>; CASES],
}

impl<'a> Cases<'a> {
    // The bytes begin with the number of modules that each case has.
    pub(crate) fn read(task: &'a [u8]) -> Option<Cases<'a>> {
        let mut bytes = Bytes(task);
        let size = bytes.count()?;
        let mut all = [Case::empty(); CASES];
        for place in 0..CASES {
            all[place] = Case::read(&mut bytes, size)?;
        }
        Some(Cases { all })
    }
}
