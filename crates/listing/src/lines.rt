// The lines of the listing: a word, numbers in columns, and byte 10.
ghost use Rattle.listing.specs.CommandLines.{answer_number};
ghost use Rattle.listing.specs.Line.{Appends, line_text, word_line};
ghost use Rattle.listing.specs.declared.column.TheConstants.{ROOM};
ghost use Rattle.std.specs.Prelude.{◌≤◌, All};

use crate::column::{Column, ROOM};
use plans::Refusal;
use std::alloc::AllocError;

// Appends a line: a word, or none, and numbers in columns. Memory is asked for only where the listing has no room left,
// and std then doubles the room: there is no allocation for each line.
pub(crate) fn append_line(
    out: &mut Vec<u8>,
    word: &[u8],
    columns: &[Column],
) -> Result<(), AllocError>
    requires { All (λ column. column.0 ≤ ROOM) columns.now }
    ensures { Appends out.old.items out.new.items (line_text word.now columns.now) result }
{
    let mut room = [0; ROOM];
    out.extend_from_slice(word)?;
    for column in columns {
        out.extend_from_slice(column.write(&mut room))?;
    }
    out.push(b'\n')?;
    Ok(())
}

// Appends the line of a command: its word, and 0 or the number of its refusal.
pub(crate) fn append_answer<T, E: Refusal>(
    out: &mut Vec<u8>,
    word: &[u8],
    answer: &Result<T, E>,
) -> Result<(), AllocError>
    ensures { Appends out.old.items out.new.items (word_line word.now (answer_number E.Refusal.number_of answer.now)) result }
{
    let number = answer.as_ref().err().map_or(0, Refusal::number);
    append_line(out, word, &[Column(4, u64::from(number))])
}
