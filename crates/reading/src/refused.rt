// The fault of a load that is refused, at the part of the plan sheet that the refusal tells.
ghost use Rattle.std.specs.Prelude.{◌≡◌, ◌+◌, ◌^◌, ◌<◌, ◌≤◌};
ghost use Rattle.reading.specs.PlanFaults.{plan_finding};
ghost use Rattle.reading.specs.Rows.{ToldInPlan, WellPlaced, row_start};
ghost use Rattle.sheets.specs.Checks.{field_finding};
ghost use Rattle.sheets.specs.Parsing.{Tells};
ghost use Rattle.sheets.specs.declared.fault.Sheet.TheVariants as sheets;
ghost use Rattle.sheets.specs.declared.fault.Wrong.TheVariants as wrongs;

use plans::LoadRefusal;
use sheets::{Fault, Finding, Place, Sheet, Wrong};

// The line of the row of module i, and behind all rows that of the sequence.
fn row_line(modules: usize, i: usize) -> Place
    requires few { modules ≤ 64 }
    requires inside { i ≤ 64 }
    ensures offset { result.offset ≡ row_start modules i }
    ensures line { result.line ≡ i + 2 }
{
    Place {
        offset: 9 + i * (modules + 1),
        line: i + 2,
    }
}

// What a refused load tells of a field that stands `offset` bytes into a line of the plan sheet.
fn at_field(refusal: LoadRefusal, line: Place, offset: usize, width: usize) -> Finding
    requires { line.offset + offset + 1 < 2 ^ 64 }
    ensures { result ≡ field_finding (wrongs.Refused refusal) sheets.Plan line.line line.offset offset width }
{
    Finding::field(Wrong::Refused(refusal), Sheet::Plan, line, offset, width)
}

// The fault that tells where a load was refused.
pub(crate) fn refused<'a>(plan: &'a [u8], modules: usize, refusal: LoadRefusal) -> Fault<'a>
    requires placed { WellPlaced plan.now modules }
    requires inside { ToldInPlan modules refusal }
    ensures { Tells plan.entry (plan_finding plan.now modules refusal) result }
{
    let finding = match refusal {
        LoadRefusal::WrongShape => Finding::whole(Wrong::Refused(refusal), Sheet::Plan),
        LoadRefusal::WrongPlace(k) => at_field(refusal, row_line(modules, modules), 4 * k, 4),
        LoadRefusal::WrongCode(i, j)
        | LoadRefusal::SelfRelated(i, j)
        | LoadRefusal::NotOneEdge(i, j)
        | LoadRefusal::NotClosed(i, j)
        | LoadRefusal::Backwards(i, j) => at_field(refusal, row_line(modules, i), j, 1),
    };
    finding.lend(plan)
}
