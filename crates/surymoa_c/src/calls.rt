// The calls of a script, each told by a byte and what it is given.
ghost use Rattle.std.specs.Prelude.{◌≡◌, ◌<◌, ◌≤◌, length, is_some, true};
ghost use Rattle.std.specs.Iterator.{at_most};

use crate::bytes::Bytes;
use lengths::Plain;
use packing::Pin;
use plans::Change;

// A call of a plan. A packing tells how many places the result list has.
#[derive(Clone, Copy)]
pub(crate) enum ScriptCall<'a> {
    // codes, and the modules of the sequence
    Load(&'a [u8], &'a [u8]),
    Change(Change),
    Keep,
    Undo,
    // the sides of the packings to come, eight bytes each
    Sides(&'a [u8]),
    Pack(usize),
    PackPinned(usize, Pin<Plain>),
    PackWithRotation(usize, usize),
    // all questions
    Show,
}

// The calls that are still to come.
#[derive(Clone, Copy, Drop)]
pub(crate) struct Calls<'a>(pub Bytes<'a>);

impl<'a> Iterator for Calls<'a> {
    type Item = ScriptCall<'a>;

    ghost remaining = { λ s. at_most (length s.0.0.now) };

    fn next(&mut self) -> Option<ScriptCall<'a>> {
        read_call(&mut self.0)
    }
}

// The next call; none at the end, and where the bytes tell none.
pub(crate) fn read_call<'a>(bytes: &mut Bytes<'a>) -> Option<ScriptCall<'a>>
    ensures { is_some result ≡ true → length bytes.new.0.now < length bytes.old.0.now }
{
    let word = bytes.byte()?;
    match word {
        0 => read_load(bytes),
        1..=4 => Some(ScriptCall::Change(read_change(bytes, word)?)),
        5 => Some(ScriptCall::Keep),
        6 => Some(ScriptCall::Undo),
        7 => read_all_sides(bytes),
        8 => Some(ScriptCall::Pack(bytes.count()?)),
        9 => read_pinned(bytes),
        10 => Some(ScriptCall::PackWithRotation(bytes.count()?, bytes.count()?)),
        11 => Some(ScriptCall::Show),
        _ => None,
    }
}

// How many modules and codes there are, the codes, and the sequence.
fn read_load<'a>(bytes: &mut Bytes<'a>) -> Option<ScriptCall<'a>>
    ensures { length bytes.new.0.now ≤ length bytes.old.0.now }
{
    let size = bytes.count()?;
    let codes = bytes.long_count()?;
    Some(ScriptCall::Load(bytes.several(codes)?, bytes.several(size)?))
}

// A change by its word: the module or the two modules that it names.
pub(crate) fn read_change(bytes: &mut Bytes<'_>, word: u8) -> Option<Change>
    ensures { length bytes.new.0.now ≤ length bytes.old.0.now }
{
    let a = bytes.count()?;
    if word == 1 {
        return Some(Change::Rotate(a));
    }
    let b = bytes.count()?;
    match word {
        2 => Some(Change::Swap(a, b)),
        3 => Some(Change::Reverse(a, b)),
        4 => Some(Change::MoveEdge(a, b)),
        _ => None,
    }
}

// How many sides there are, and these.
fn read_all_sides<'a>(bytes: &mut Bytes<'a>) -> Option<ScriptCall<'a>>
    ensures { length bytes.new.0.now ≤ length bytes.old.0.now }
{
    let count = bytes.byte()?;
    Some(ScriptCall::Sides(bytes.several(8 * usize::from(count))?))
}

// The places of the result list, the module that is pinned, and where.
fn read_pinned<'a>(bytes: &mut Bytes<'a>) -> Option<ScriptCall<'a>>
    ensures { length bytes.new.0.now ≤ length bytes.old.0.now }
{
    let places = bytes.count()?;
    let pin = Pin {
        module: bytes.count()?,
        across: bytes.length()?,
        up: bytes.length()?,
    };
    Some(ScriptCall::PackPinned(places, pin))
}
