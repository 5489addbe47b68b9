// PACK at a plan.
ghost use Rattle.listing.specs.Bordered.{in_counts};
ghost use Rattle.listing.specs.Line.{Appends};
ghost use Rattle.listing.specs.PackLines.{pack_lines};
ghost use Rattle.planner.specs.States.{state_of};

use crate::lines::append_answer;
use crate::packed::append_packing;
use lengths::Counted;
use packing::unplaced;
use planner::Plan;
use plans::Sides;
use representations::Representation;
use std::alloc::AllocError;

// Packs the plan, and appends the answer and, where it is done, the chip, its modules and its borders.
pub(crate) fn append_pack<R: Representation>(
    out: &mut Vec<u8>,
    plan: &Plan<R>,
    sides: &[Sides<Counted>],
) -> Result<(), AllocError>
    ensures { Appends out.old.items out.new.items (pack_lines (state_of plan.now) (in_counts sides.now)) result }
{
    // As many places as a plan can have modules, whatever the heap has.
    let mut results = [unplaced(); 64];
    let packed = plan.pack(sides, &mut results);
    append_answer(out, b"PACK", &packed)?;
    match packed {
        Ok(chip) => append_packing(out, &results[..plan.modules()], chip),
        Err(_) => Ok(()),
    }
}
