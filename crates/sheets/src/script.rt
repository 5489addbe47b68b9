// Reading one line of the script.
ghost use Rattle.std.specs.Prelude.{◌≡◌, ◌+◌, ◌*◌, ◌<◌, ◌++◌, length};
ghost use Rattle.sheets.specs.Promises.{Reads};
ghost use Rattle.sheets.specs.Script.{FirstOfLine, ReadsLine, command_with, fields_behind, line_read, operand_at, operand_checks, script_checks};
ghost use Rattle.sheets.specs.declared.fault.Sheet.TheVariants as sheets;

use crate::command::{Command, ScriptLine, Word};
use crate::fault::{Fault, Finding, Sheet};
use crate::line::Line;
use crate::place::Place;
use crate::word::{fields_behind, read_word};
use plans::Change;

// Field `j` behind the word of a line.
fn operand(line: Line<'_>, j: usize) -> Result<usize, Finding>
    requires plan { line.sheet ≡ sheets.Plan }
    requires few { j < 2 }
    requires within { line.at.offset + (4 + 4 * j) + 4 < length line.bytes.now }
    ensures { Reads sheets.Plan line.entry.bytes.now (operand_checks line.entry.bytes.now line.entry.at.line line.entry.at.offset (j + 1) j) (λ n. n ≡ operand_at line.entry.bytes.now line.entry.at.offset (j + 1) j) result }
{
    let number = line.field(4 + 4 * j, 4).number()?;
    Ok(number as usize)
}

// The two fields behind the word of a line.
fn operands(line: Line<'_>) -> Result<(usize, usize), Finding>
    requires plan { line.sheet ≡ sheets.Plan }
    requires within { line.at.offset + 12 < length line.bytes.now }
    ensures { Reads sheets.Plan line.entry.bytes.now (operand_checks line.entry.bytes.now line.entry.at.line line.entry.at.offset 2 0 ++ operand_checks line.entry.bytes.now line.entry.at.line line.entry.at.offset 2 1) (λ p. (p.0 ≡ operand_at line.entry.bytes.now line.entry.at.offset 2 0) × (p.1 ≡ operand_at line.entry.bytes.now line.entry.at.offset 2 1)) result }
{
    Ok((operand(line, 0)?, operand(line, 1)?))
}

// The command of a line with that word, and with as many fields behind it as it should have.
fn command_of(line: Line<'_>, word: Word) -> Result<Command, Finding>
    requires plan { line.sheet ≡ sheets.Plan }
    requires within { line.at.offset + (4 + 4 * fields_behind word) < length line.bytes.now }
    ensures { Reads sheets.Plan line.entry.bytes.now (operand_checks line.entry.bytes.now line.entry.at.line line.entry.at.offset (fields_behind word) 0 ++ operand_checks line.entry.bytes.now line.entry.at.line line.entry.at.offset (fields_behind word) 1) (λ c. c ≡ command_with word (operand_at line.entry.bytes.now line.entry.at.offset (fields_behind word) 0) (operand_at line.entry.bytes.now line.entry.at.offset (fields_behind word) 1)) result }
{
    Ok(match word {
        Word::Turn => Command::Change(Change::Rotate(operand(line, 0)?)),
        Word::Swap => {
            let (a, b) = operands(line)?;
            Command::Change(Change::Swap(a, b))
        }
        Word::Flip => {
            let (a, b) = operands(line)?;
            Command::Change(Change::Reverse(a, b))
        }
        Word::Move => {
            let (a, b) = operands(line)?;
            Command::Change(Change::MoveEdge(a, b))
        }
        Word::Keep => Command::Keep,
        Word::Undo => Command::Undo,
        Word::Pack => Command::Pack,
    })
}

// The command of a line that is there, and the place of the next.
fn read_line(line: Line<'_>) -> Result<ScriptLine, Finding>
    requires plan { line.sheet ≡ sheets.Plan }
    requires within { line.at.offset < length line.bytes.now }
    ensures { Reads sheets.Plan line.entry.bytes.now (script_checks line.entry.bytes.now line.entry.at.line line.entry.at.offset) (λ l. l ≡ line_read line.entry.bytes.now line.entry.at) result }
{
    if line.width() < 4 {
        return Err(line.wrong_length());
    }
    let word: Word = read_word(line)?;
    let width = 4 + 4 * fields_behind(word);
    line.check_width(width)?;
    let command = command_of(line, word)?;
    Ok(ScriptLine {
        command,
        next: line.next(width).at,
    })
}

// The command of the script line at a place, with the place of the next line; none where the
// sheet has ended there; or the line's first fault.
pub fn read_command<'a>(plan: &'a [u8], at: Place) -> Result<Option<ScriptLine>, Fault<'a>>
    ensures answer { ReadsLine plan.entry at result }
    ensures law { FirstOfLine plan.entry at result }
{
    if at.offset >= plan.len() {
        return Ok(None);
    }
    let line = read_line(Line {
        sheet: Sheet::Plan,
        bytes: plan,
        at,
    })
    .map_err(|finding| finding.lend(plan))?;
    Ok(Some(line))
}
