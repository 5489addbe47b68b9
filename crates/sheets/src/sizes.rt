// The sizes sheet: two sides a line, one line for each module.
ghost use Rattle.std.specs.Prelude.{◌≡◌, ◌+◌, ◌≤◌, length};
ghost use Rattle.sheets.specs.AtLines.{IsLine};
ghost use Rattle.sheets.specs.Reading.{is_side};
ghost use Rattle.sheets.specs.SizesRead.{ReadsSide, ReadsSizeLine, ReadsSizes};
ghost use Rattle.sheets.specs.declared.fault.Sheet.TheVariants as sheets;

use crate::fault::{Finding, Wrong};
use crate::line::Line;
use lengths::{Length, Plain, Sides};

// Whether a module can have this side.
fn is_side(side: u32) -> bool
    ensures { result ≡ is_side side }
{
    Plain(side).is_side()
}

// The side in the field that stands `offset` bytes into a line.
fn read_side(line: Line<'_>, offset: usize) -> Result<u32, Finding>
    requires sizes { line.sheet ≡ sheets.Sizes }
    requires within { line.at.offset + offset + 8 ≤ length line.bytes.now }
    ensures { ReadsSide line.entry.bytes.now line.entry.at offset result }
{
    let field = line.field(offset, 8);
    let side = field.number()?;
    if !is_side(side) {
        return Err(field.fault(Wrong::OutOfRange));
    }
    Ok(side)
}

// The sides in a line.
fn read_size_line(line: Line<'_>) -> Result<Sides<Plain>, Finding>
    requires sizes { line.sheet ≡ sheets.Sizes }
    ensures { ReadsSizeLine line.entry.bytes.now line.entry.at result }
{
    line.check_width(16)?;
    let width = Plain(read_side(line, 0)?);
    let height = Plain(read_side(line, 8)?);
    Ok(Sides { width, height })
}

// The whole sheet: a line for each of the sides that are written, and no byte behind them.
pub(crate) fn read_sizes(first: Line<'_>, sides: &mut [Sides<Plain>]) -> Result<(), Finding>
    requires sizes { first.sheet ≡ sheets.Sizes }
    requires first { IsLine first.bytes.now 0 first.at }
    ensures { ReadsSizes first.entry.bytes.now sides.old sides.new result }
{
    let mut line = first;
    for side in sides.iter_mut() {
        *side = read_size_line(line)?;
        line = line.next(16);
    }
    if line.goes_on() {
        return Err(line.wrong_length());
    }
    Ok(())
}
