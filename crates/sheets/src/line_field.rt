// Fields of a line.
ghost use Rattle.std.specs.Prelude.{◌≡◌, ◌+◌, ◌<◌, ◌≤◌, [], ◌∷◌, length};
ghost use Rattle.sheets.specs.Checks.{tell_if, field_finding};
ghost use Rattle.sheets.specs.Lines.{part};
ghost use Rattle.sheets.specs.Promises.{Reads};
ghost use Rattle.sheets.specs.Reading.{bad_at, number_at};
ghost use Rattle.sheets.specs.declared.fault.Wrong.TheVariants as wrongs;

use crate::fault::{Finding, Wrong};
use crate::field::number;
use crate::line::Line;

// A field: its line, how far into that it starts, and how many bytes it has.
#[derive(Clone, Copy)]
pub(crate) struct Field<'a> {
    pub line: Line<'a>,
    pub offset: usize,
    pub width: usize,
    ghost within: { line.at.offset + offset + width ≤ length line.bytes.now },
    ghost some: { 0 < width },
    ghost few: { width < 10 },
}

impl<'a> Field<'a> {
    // Its bytes.
    pub(crate) fn bytes(self) -> &'a [u8]
        ensures { result.now ≡ part self.entry.line.bytes.now (self.entry.line.at.offset + self.entry.offset) self.entry.width }
    {
        let from = self.line.at.offset + self.offset;
        &self.line.bytes[from..from + self.width]
    }

    // A fault of it.
    pub(crate) fn fault(self, wrong: Wrong) -> Finding
        ensures { result ≡ field_finding wrong self.entry.line.sheet self.entry.line.at.line self.entry.line.at.offset self.entry.offset self.entry.width }
    {
        Finding::field(
            wrong,
            self.line.sheet,
            self.line.at,
            self.offset,
            self.width,
        )
    }

    // The number in it.
    pub(crate) fn number(self) -> Result<u32, Finding>
        ensures { Reads self.entry.line.sheet self.entry.line.bytes.now (tell_if (bad_at self.entry.line.bytes.now (self.entry.line.at.offset + self.entry.offset) self.entry.width) (field_finding wrongs.BadField self.entry.line.sheet self.entry.line.at.line self.entry.line.at.offset self.entry.offset self.entry.width) ∷ []) (λ n. n ≡ number_at self.entry.line.bytes.now (self.entry.line.at.offset + self.entry.offset) self.entry.width) result }
    {
        number(self.bytes()).ok_or(self.fault(Wrong::BadField))
    }
}
