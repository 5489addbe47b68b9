// The lines of a packing.
ghost use Rattle.std.specs.Prelude.{◌≤◌, map, length};
ghost use Rattle.lengths.specs.CountedLengths.{count_of};
ghost use Rattle.listing.specs.Line.{Appends, edge_line};
ghost use Rattle.listing.specs.PackLines.{chip_lines, record_lines};
ghost use Rattle.plans.specs.CarriedPackings.{carry_chip, carry_placed};

use crate::column::Column;
use crate::lines::append_line;
use lengths::Counted;
use plans::{Chip, Placed};
use std::alloc::AllocError;

// Appends the lines of the modules of a result list, from module 0.
fn append_records(out: &mut Vec<u8>, results: &[Placed<Counted>]) -> Result<(), AllocError>
    ensures { Appends out.old.items out.new.items (record_lines (length results.now) (map (carry_placed count_of) results.now)) result }
{
    for (i, placed) in results.iter().enumerate() {
        append_line(
            out,
            b"",
            &[
                Column(4, i as u64),
                Column(10, u64::from(placed.left.length())),
                Column(10, u64::from(placed.bottom.length())),
            ],
        )?;
    }
    Ok(())
}

// Appends the lines of a done packing: the chip, its modules and its borders.
pub(crate) fn append_packing(
    out: &mut Vec<u8>,
    results: &[Placed<Counted>],
    chip: Chip<Counted>,
) -> Result<(), AllocError>
    ensures { Appends out.old.items out.new.items (chip_lines (length results.now) (map (carry_placed count_of) results.now) (carry_chip count_of chip)) result }
{
    append_line(
        out,
        b"CHIP",
        &[
            Column(10, u64::from(chip.width.length())),
            Column(10, u64::from(chip.height.length())),
            Column(16, chip.area),
        ],
    )?;
    append_records(out, results)?;
    append_line(
        out,
        b"EDGE",
        &[
            Column(4, u64::from(chip.width.borders())),
            Column(4, u64::from(chip.height.borders())),
        ],
    )
}
