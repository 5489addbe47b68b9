// Faults that lend their field from a sheet.
ghost use Rattle.std.specs.Prelude.{◌+◌, ◌<◌, ◌≤◌, length};
ghost use Rattle.sheets.specs.Parsing.{Tells, of_sheet};

use crate::fault::{Fault, Finding, Sheet};

impl Finding {
    // The fault that tells this, with its field as a part of the sheet; an empty part where the sheet has no such field.
    pub fn lend<'a>(self, sheet: &'a [u8]) -> Fault<'a>
        ensures lent { self.from + self.width ≤ length sheet.entry.now → Tells sheet.entry self result }
        ensures outside { length sheet.entry.now < self.from + self.width → Tells sheet.entry (record self { from = 0; width = 0 }) result }
    {
        // `get` with `unwrap_or` reads shorter, but its proof of where in the sheet the field lies did not close.
        let field = match self.from.checked_add(self.width) {
            Some(end) if end <= sheet.len() => &sheet[self.from..end],
            _ => &sheet[..0],
        };
        Fault {
            wrong: self.wrong,
            sheet: self.sheet,
            line: self.line,
            column: self.column,
            field,
        }
    }

    // The same, of the sheet that it names.
    pub(crate) fn lend_from<'a>(self, sizes: &'a [u8], plan: &'a [u8]) -> Fault<'a>
        requires { self.from + self.width ≤ length (of_sheet sizes.now plan.now self.sheet) }
        ensures { Tells (of_sheet sizes.entry plan.entry self.sheet) self result }
    {
        match self.sheet {
            Sheet::Sizes => self.lend(sizes),
            Sheet::Plan => self.lend(plan),
        }
    }
}
