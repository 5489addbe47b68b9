// The packing sequence: a line of the plan sheet with a field for each place.
ghost use Rattle.std.specs.Prelude.{◌≡◌, ◌+◌, ◌*◌, ◌≤◌, length};
ghost use Rattle.sheets.specs.Lists.{Front};
ghost use Rattle.sheets.specs.Promises.{Passed, Reads};
ghost use Rattle.sheets.specs.Reading.{number_at, sequence_checks};
ghost use Rattle.sheets.specs.declared.fault.Sheet.TheVariants as sheets;

use crate::fault::Finding;
use crate::line::Line;

// The modules at the places of a line, as many as are written.
pub(crate) fn read_sequence(line: Line<'_>, places: &mut [usize]) -> Result<(), Finding>
    requires plan { line.sheet ≡ sheets.Plan }
    requires few { length places.old ≤ 64 }
    ensures { Reads sheets.Plan line.entry.bytes.now (sequence_checks line.entry.bytes.now (length places.old) line.entry.at.line line.entry.at.offset) (λ _. Front 0 (λ k. number_at line.entry.bytes.now (line.entry.at.offset + 4 * k) 4) (length places.old) places.new × Passed line.entry.bytes.now line.entry.at.offset (4 * length places.old)) result }
{
    line.check_width(4 * places.len())?;
    for (j, place) in places.iter_mut().enumerate() {
        *place = line.field(4 * j, 4).number()? as usize;
    }
    Ok(())
}
