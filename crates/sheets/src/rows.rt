// The rows of the plan sheet: a letter for each two modules.
ghost use Rattle.std.specs.Prelude.{◌≡◌, ◌+◌, ◌*◌, ◌<◌, ◌≤◌, length};
ghost use Rattle.sheets.specs.AtLines.{IsLine};
ghost use Rattle.sheets.specs.Lists.{Front};
ghost use Rattle.sheets.specs.Promises.{Passed, Reads};
ghost use Rattle.sheets.specs.Reading.{code_at, code_read, letter_checks, row_checks, rows_checks};
ghost use Rattle.sheets.specs.declared.fault.Sheet.TheVariants as sheets;

use crate::fault::{Finding, Wrong};
use crate::line::Line;
use crate::word::code_of;

// The code of letter `j` of a row.
fn read_code(line: Line<'_>, j: usize) -> Result<u8, Finding>
    requires plan { line.sheet ≡ sheets.Plan }
    requires within { line.at.offset + j < length line.bytes.now }
    ensures { Reads sheets.Plan line.entry.bytes.now (letter_checks line.entry.bytes.now line.entry.at.line line.entry.at.offset j) (λ code. code ≡ code_at line.entry.bytes.now (line.entry.at.offset + j)) result }
{
    code_of(line.byte(j)).ok_or(line.field(j, 1).fault(Wrong::UnknownWord))
}

// The codes of a row, as many as are written.
fn read_row(line: Line<'_>, codes: &mut [u8]) -> Result<(), Finding>
    requires plan { line.sheet ≡ sheets.Plan }
    ensures { Reads sheets.Plan line.entry.bytes.now (row_checks line.entry.bytes.now (length codes.old) line.entry.at.line line.entry.at.offset) (λ _. Front 0 (λ j. code_at line.entry.bytes.now (line.entry.at.offset + j)) (length codes.old) codes.new × Passed line.entry.bytes.now line.entry.at.offset (length codes.old)) result }
{
    line.check_width(codes.len())?;
    for (j, code) in codes.iter_mut().enumerate() {
        *code = read_code(line, j)?;
    }
    Ok(())
}

// All rows, from the second line on; tells the line behind them.
pub(crate) fn read_rows<'a>(
    second: Line<'a>,
    modules: usize,
    codes: &mut [u8],
) -> Result<Line<'a>, Finding>
    requires plan { second.sheet ≡ sheets.Plan }
    requires few { modules ≤ 64 }
    requires room { modules * modules ≤ length codes.old }
    requires second { IsLine second.bytes.now 1 second.at }
    ensures { Reads sheets.Plan second.entry.bytes.now (rows_checks second.entry.bytes.now modules) (λ line. (line.sheet ≡ sheets.Plan) × (line.bytes ≡ second.entry.bytes) × IsLine second.entry.bytes.now (modules + 1) line.at × Front 0 (code_read second.entry.bytes.now modules) (modules * modules) codes.new) result }
{
    let mut line = second;
    // `chunks_exact_mut` takes no chunks of 0, and no proof learns what its chunks hold afterwards.
    for i in 0..modules {
        read_row(line, &mut codes[i * modules..(i + 1) * modules])?;
        line = line.next(modules);
    }
    Ok(line)
}
