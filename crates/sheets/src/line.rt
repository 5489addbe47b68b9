// Lines of a sheet.
ghost use Rattle.std.specs.Prelude.{◌≡◌, ◌+◌, ◌-◌, ◌^◌, ◌<◌, ◌≤◌, ◌==◌, T, [], ◌∷◌, length, min, not, position, slice_index};
ghost use Rattle.sheets.specs.Checks.{tell_if, line_finding};
ghost use Rattle.sheets.specs.Lines.{goes_on, has_width, width_at};
ghost use Rattle.sheets.specs.Promises.{Passed, Reads};

use crate::fault::{Finding, Sheet};
use crate::line_field::Field;
use crate::place::Place;

// Where the first byte 10 stands.
fn line_end(bytes: &[u8]) -> Option<usize>
    ensures { result ≡ position (λ b. b == 10) bytes.now }
{
    bytes.iter().position(|b| *b == b'\n')
}

// A line: its sheet, the bytes of that, and where in them it starts.
// Its width is no field of it: a stage knows it only once it is checked, and says so to the next by a `requires`.
// That it is of its own sheet a stage asks too: with a type for each sheet the struct would be generic, and a generic struct
// with a ghost field derives no `Copy`.
#[derive(Clone, Copy)]
pub(crate) struct Line<'a> {
    pub sheet: Sheet,
    pub bytes: &'a [u8],
    pub at: Place,
    ghost starts: { at.offset ≤ length bytes.now },
}

impl<'a> Line<'a> {
    // The line behind this one, which has `width` bytes; its number stays at the largest that there is.
    pub(crate) fn next(self, width: usize) -> Line<'a>
        requires { self.at.offset + width < length self.bytes.now }
        ensures sheet { result.sheet ≡ self.entry.sheet }
        ensures bytes { result.bytes ≡ self.entry.bytes }
        ensures offset { result.at.offset ≡ self.entry.at.offset + width + 1 }
        ensures line { result.at.line ≡ min (self.entry.at.line + 1) (2 ^ 64 - 1) }
    {
        Line {
            sheet: self.sheet,
            bytes: self.bytes,
            at: Place {
                offset: self.at.offset + width + 1,
                line: self.at.line.saturating_add(1),
            },
        }
    }

    // Whether the sheet has a byte where the line starts.
    pub(crate) fn goes_on(self) -> bool
        ensures { result ≡ goes_on self.entry.bytes.now self.entry.at.offset }
    {
        self.at.offset < self.bytes.len()
    }

    // How many bytes the line has before its byte 10.
    pub(crate) fn width(self) -> usize
        ensures exact { result ≡ width_at self.entry.bytes.now self.entry.at.offset }
        ensures within { self.entry.at.offset + result ≤ length self.entry.bytes.now }
    {
        let rest = &self.bytes[self.at.offset..];
        line_end(rest).unwrap_or(rest.len())
    }

    // Whether the line is there, has `width` bytes and ends in byte 10.
    fn has_width(self, width: usize) -> bool
        ensures exact { result ≡ has_width self.entry.bytes.now self.entry.at.offset width }
        ensures within { T result → self.entry.at.offset + width < length self.entry.bytes.now }
    {
        self.width() == width && self.bytes.get(self.at.offset + width) == Some(&b'\n')
    }

    // The fault that the line is missing, surplus or of wrong length.
    pub(crate) fn wrong_length(self) -> Finding
        ensures { result ≡ line_finding self.entry.sheet self.entry.at.line }
    {
        Finding::line(self.sheet, self.at.line)
    }

    // That fault, if the line has not `width` bytes.
    pub(crate) fn check_width(self, width: usize) -> Result<(), Finding>
        ensures { Reads self.entry.sheet self.entry.bytes.now (tell_if (not (has_width self.entry.bytes.now self.entry.at.offset width)) (line_finding self.entry.sheet self.entry.at.line) ∷ []) (λ _. Passed self.entry.bytes.now self.entry.at.offset width) result }
    {
        if !self.has_width(width) {
            return Err(self.wrong_length());
        }
        Ok(())
    }

    // The byte that stands `offset` bytes into the line.
    pub(crate) fn byte(self, offset: usize) -> u8
        requires { self.at.offset + offset < length self.bytes.now }
        ensures { result ≡ slice_index self.entry.bytes.now (self.entry.at.offset + offset) }
    {
        self.bytes[self.at.offset + offset]
    }

    // The field that stands `offset` bytes into the line.
    pub(crate) fn field(self, offset: usize, width: usize) -> Field<'a>
        requires within { self.at.offset + offset + width ≤ length self.bytes.now }
        requires some { 0 < width }
        requires few { width < 10 }
        ensures line { result.line ≡ self.entry }
        ensures offset { result.offset ≡ offset }
        ensures width { result.width ≡ width }
    {
        Field {
            line: self,
            offset,
            width,
        }
    }
}
