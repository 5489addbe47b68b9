// What can be wrong with a sheet, and how a fault tells where.
ghost use Rattle.std.specs.Prelude.{◌≡◌, ◌+◌, ◌^◌, ◌<◌, ◌-◌, min};
ghost use Rattle.sheets.specs.Checks.{whole_finding, line_finding, field_finding};
ghost use Rattle.sheets.specs.Faults.{number_of, layer_of, sheet_number};

use crate::place::Place;
use plans::{LoadRefusal, Refusal};

// What is wrong.
#[derive(Clone, Copy)]
pub enum Wrong {
    // a list of the caller's has too little room
    ListTooShort,
    // a line is missing, surplus or of wrong length
    LineLength,
    // a word or a letter is unknown
    UnknownWord,
    // a field is no number as it should be written
    BadField,
    // the number of modules or a size is out of its range
    OutOfRange,
    // a sheet has too many bytes
    SheetTooLong,
    // the sheets are well written, and a representation refuses to load what they say
    Refused(LoadRefusal),
}

// At which layer of the reading it is wrong.
#[derive(Clone, Copy, PartialEq, Eq, Debug)]
pub enum Layer {
    List,
    Sheet,
    Line,
    Field,
    Plan,
}

// One of the two sheets.
#[derive(Clone, Copy, PartialEq, Eq, Debug)]
pub enum Sheet {
    Sizes,
    Plan,
}

// What is wrong and where: line and column count from 1, and are 0 where none is meant; the field at fault is the part of the sheet at offset `from`, `width` bytes long.
#[derive(Clone, Copy)]
pub struct Finding {
    pub wrong: Wrong,
    pub sheet: Sheet,
    pub line: usize,
    pub column: usize,
    pub from: usize,
    pub width: usize,
}

// A fault of reading, with the field at fault as a part of its sheet.
// It holds no `Finding`: that would hand out `from` and `width` beside the part that they name.
#[derive(Clone, Copy)]
pub struct Fault<'a> {
    pub wrong: Wrong,
    pub sheet: Sheet,
    pub line: usize,
    pub column: usize,
    pub field: &'a [u8],
}

impl Refusal for Wrong {
    ghost number_of = { number_of };

    fn number(&self) -> u16 {
        match self {
            Wrong::ListTooShort => 60,
            Wrong::LineLength => 61,
            Wrong::UnknownWord => 62,
            Wrong::BadField => 63,
            Wrong::OutOfRange => 64,
            Wrong::SheetTooLong => 65,
            Wrong::Refused(refusal) => refusal.number(),
        }
    }
}

impl Wrong {
    // The layer that it belongs to.
    pub fn layer(self) -> Layer
        ensures { result ≡ layer_of self }
    {
        match self {
            Wrong::ListTooShort => Layer::List,
            Wrong::SheetTooLong => Layer::Sheet,
            Wrong::LineLength => Layer::Line,
            Wrong::UnknownWord | Wrong::BadField | Wrong::OutOfRange => Layer::Field,
            Wrong::Refused(_) => Layer::Plan,
        }
    }
}

impl Sheet {
    // The number that the listing prints; it is no refusal's, and a `From` would not say what it is for.
    pub fn number(self) -> u8
        ensures { result ≡ sheet_number self }
    {
        match self {
            Sheet::Sizes => 1,
            Sheet::Plan => 2,
        }
    }
}

impl Finding {
    // A fault of a list or of a whole sheet.
    pub fn whole(wrong: Wrong, sheet: Sheet) -> Finding
        ensures { result ≡ whole_finding wrong sheet }
    {
        Finding {
            wrong,
            sheet,
            line: 0,
            column: 0,
            from: 0,
            width: 0,
        }
    }

    // A line that is missing, surplus or of wrong length.
    pub(crate) fn line(sheet: Sheet, line: usize) -> Finding
        ensures { result ≡ line_finding sheet line }
    {
        Finding {
            wrong: Wrong::LineLength,
            sheet,
            line,
            column: 1,
            from: 0,
            width: 0,
        }
    }

    // A fault of the field that stands `offset` bytes into the line at a place. What is told stays at the largest
    // number that there is, which no sheet reaches.
    pub fn field(wrong: Wrong, sheet: Sheet, at: Place, offset: usize, width: usize) -> Finding
        ensures fits { at.offset + offset + 1 < 2 ^ 64 → result ≡ field_finding wrong sheet at.line at.offset offset width }
        ensures capped { result ≡ record (field_finding wrong sheet at.line at.offset offset width) { column = min (offset + 1) (2 ^ 64 - 1); from = min (at.offset + offset) (2 ^ 64 - 1) } }
    {
        Finding {
            wrong,
            sheet,
            line: at.line,
            column: offset.saturating_add(1),
            from: at.offset.saturating_add(offset),
            width,
        }
    }
}
