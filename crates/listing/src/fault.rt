// The line of a fault of the sheets.
ghost use Rattle.listing.specs.FaultLine.{fault_line};
ghost use Rattle.listing.specs.Line.{Appends};

use crate::column::Column;
use crate::lines::append_line;
use plans::Refusal;
use sheets::Fault;
use std::alloc::AllocError;

// Appends the line of a fault that the reading answered.
pub(crate) fn append_fault(out: &mut Vec<u8>, fault: Fault<'_>) -> Result<(), AllocError>
    ensures { Appends out.old.items out.new.items (fault_line fault.entry.wrong fault.entry.sheet fault.entry.line fault.entry.column) result }
{
    append_line(
        out,
        b"FAIL",
        &[
            Column(4, u64::from(fault.wrong.number())),
            Column(4, u64::from(fault.sheet.number())),
            Column(6, fault.line as u64),
            Column(6, fault.column as u64),
        ],
    )
}
