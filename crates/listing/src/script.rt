// The script at a plan, line by line.
ghost use Rattle.listing.specs.Bordered.{in_counts};
ghost use Rattle.listing.specs.CommandLines.{change_word, command_lines, state_after};
ghost use Rattle.listing.specs.Line.{Appends};
ghost use Rattle.listing.specs.ScriptLines.{lines_from};
ghost use Rattle.planner.specs.States.{state_of};
ghost use Rattle.plans.specs.Model.{made_of};
ghost use Rattle.std.specs.Prelude.{◌≡◌, length};

use crate::fault::append_fault;
use crate::lines::append_answer;
use crate::pack::append_pack;
use crate::scripted::Scripted;
use lengths::Counted;
use plans::{Change, Sides};
use representations::Representation;
use sheets::{Command, Place, read_command};
use std::alloc::AllocError;

// The word of a change, as bytes like every word of a sheet.
fn change_word(wanted: Change) -> &'static [u8]
    ensures { result.now ≡ change_word wanted }
{
    match wanted {
        Change::Rotate(_) => b"TURN",
        Change::Swap(_, _) => b"SWAP",
        Change::Reverse(_, _) => b"FLIP",
        Change::MoveEdge(_, _) => b"MOVE",
    }
}

// Makes the call of one command, and appends its lines.
fn run_command<R: Representation>(
    out: &mut Vec<u8>,
    scripted: &mut Scripted<R>,
    sides: &[Sides<Counted>],
    command: Command,
) -> Result<(), AllocError>
    ensures bytes { Appends out.old.items out.new.items (command_lines (in_counts sides.now) (state_of scripted.old.plan) command) result }
    ensures leads { state_of scripted.new.plan ≡ state_after (state_of scripted.old.plan) command }
{
    match command {
        Command::Change(wanted) => {
            let answer = scripted.change(wanted);
            append_answer(out, change_word(wanted), &answer)
        }
        Command::Keep => append_answer(out, b"KEEP", &scripted.keep()),
        Command::Undo => append_answer(out, b"UNDO", &scripted.undo()),
        Command::Pack => append_pack(out, &scripted.plan, sides),
    }
}

// Runs the script from a place of the plan sheet to its end or its first fault, and appends its lines.
fn run_script<R: Representation>(
    out: &mut Vec<u8>,
    scripted: &mut Scripted<R>,
    sides: &[Sides<Counted>],
    sheet: &[u8],
    start: Place,
) -> Result<(), AllocError>
    ensures { Appends out.old.items out.new.items (lines_from sheet.now (in_counts sides.now) (length sheet.now) start (state_of scripted.old.plan)) result }
{
    let mut at = start;
    // Reading tells where the next line is, so there is nothing to count.
    loop {
        match read_command(sheet, at) {
            Ok(Some(line)) => {
                run_command(out, scripted, sides, line.command)?;
                at = line.next;
            }
            Ok(None) => return Ok(()),
            Err(fault) => return append_fault(out, fault),
        }
    }
}

// Appends the lines of the script at a plan over a representation. A trial that is open at the end is undone.
pub(crate) fn append_script<R: Representation + Drop>(
    out: &mut Vec<u8>,
    representation: R,
    sides: &[Sides<Counted>],
    sheet: &[u8],
    start: Place,
) -> Result<(), AllocError>
    ensures { Appends out.old.items out.new.items (lines_from sheet.now (in_counts sides.now) (length sheet.now) start (made_of (R.Representation.means representation))) result }
{
    let mut scripted = Scripted::new(representation);
    let listed = run_script(out, &mut scripted, sides, sheet, start);
    let _ = scripted.close();
    listed
}
