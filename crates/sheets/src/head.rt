// The head of the plan sheet.
ghost use Rattle.std.specs.Prelude.{◌≡◌, ◌≤◌, Some};
ghost use Rattle.sheets.specs.declared.fault.Sheet.TheVariants as sheets;
ghost use Rattle.sheets.specs.AtLines.{IsLine};
ghost use Rattle.sheets.specs.Lines.{part};
ghost use Rattle.sheets.specs.Promises.{Reads};
ghost use Rattle.sheets.specs.Reading.{head_checks, modules_of};
ghost use Rattle.sheets.specs.Words.{head_word};

use crate::fault::{Finding, Sheet, Wrong};
use crate::line::Line;
use crate::parsed::Head;
use crate::place::FIRST;
use crate::word::read_word;

// The head's word and number of modules, and the line behind it.
pub(crate) fn read_head<'a>(plan: &'a [u8]) -> Result<(Head, usize, Line<'a>), Finding>
    ensures { Reads sheets.Plan plan.now (head_checks plan.now) (λ h. (head_word (part plan.now 0 4) ≡ Some h.0) × (h.1 ≡ modules_of plan.now) × (h.1 ≤ 64) × (h.2.sheet ≡ sheets.Plan) × (h.2.bytes ≡ plan.entry) × IsLine plan.now 1 h.2.at) result }
{
    let line = Line {
        sheet: Sheet::Plan,
        bytes: plan,
        at: FIRST,
    };
    line.check_width(8)?;
    let head = read_word(line)?;
    let field = line.field(4, 4);
    let modules = field.number()?;
    if modules > 64 {
        return Err(field.fault(Wrong::OutOfRange));
    }
    Ok((head, modules as usize, line.next(8)))
}
