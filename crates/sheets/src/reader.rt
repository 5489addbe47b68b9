// Parsing the two sheets into the caller's lists.
ghost use Rattle.sheets.specs.Lists.{Ready, blank_sides};
ghost use Rattle.sheets.specs.Parsing.{Answers, FirstOf, Leaves, ReadsAll, ReadsLengths, ReadsLists, ReadsRoom, held};

use crate::fault::{Fault, Finding, Sheet, Wrong};
use crate::head::read_head;
use crate::line::Line;
use crate::parsed::Parsed;
use crate::place::FIRST;
use crate::rows::read_rows;
use crate::sequence::read_sequence;
use crate::sizes::read_sizes;
use crate::zeros::clear_all;
use lengths::{Plain, Sides};

// As many modules as a plan can have, and as many bytes as a sheet can have.
const MOST_MODULES: usize = 64;

const MOST_BYTES: usize = 32_768;

// The fault of lists that have too little room.
fn check_room(sides: usize, codes: usize, places: usize) -> Result<(), Finding>
    ensures { ReadsRoom sides codes places result }
{
    if sides < MOST_MODULES {
        return Err(Finding::whole(Wrong::ListTooShort, Sheet::Sizes));
    }
    if codes < MOST_MODULES * MOST_MODULES || places < MOST_MODULES {
        return Err(Finding::whole(Wrong::ListTooShort, Sheet::Plan));
    }
    Ok(())
}

// The fault of a sheet that is too long.
fn check_lengths(sizes: &[u8], plan: &[u8]) -> Result<(), Finding>
    ensures { ReadsLengths sizes.now plan.now result }
{
    if sizes.len() > MOST_BYTES {
        return Err(Finding::whole(Wrong::SheetTooLong, Sheet::Sizes));
    }
    if plan.len() > MOST_BYTES {
        return Err(Finding::whole(Wrong::SheetTooLong, Sheet::Plan));
    }
    Ok(())
}

// Both sheets, read into lists of zeros.
// The lists are no struct: each contract over one would have to say that it keeps their references.
fn read_all(
    sizes: &[u8],
    plan: &[u8],
    sides: &mut [Sides<Plain>],
    codes: &mut [u8],
    places: &mut [usize],
) -> Result<Parsed, Finding>
    requires sides { Ready 64 blank_sides sides.old }
    requires codes { Ready 4096 0 codes.old }
    requires places { Ready 64 0 places.old }
    ensures { ReadsAll sizes.now plan.now (held sides.new codes.new places.new) result }
{
    check_lengths(sizes, plan)?;
    let (head, modules, second) = read_head(plan)?;
    let first = Line {
        sheet: Sheet::Sizes,
        bytes: sizes,
        at: FIRST,
    };
    read_sizes(first, &mut sides[..modules])?;
    let last = read_rows(second, modules, &mut codes[..modules * modules])?;
    read_sequence(last, &mut places[..modules])?;
    Ok(Parsed {
        head,
        modules,
        script: last.next(4 * modules).at,
    })
}

// Both sheets, read into the caller's lists: these stay as they are where one is too short, and
// are zero after any other fault.
#[tactic(auto, using(crate::proofs::RoomLemmas::short_told, crate::proofs::RoomLemmas::room_read, crate::proofs::RoomLemmas::room_fault))]
fn read_lists(
    sizes: &[u8],
    plan: &[u8],
    sides: &mut [Sides<Plain>],
    codes: &mut [u8],
    places: &mut [usize],
) -> Result<Parsed, Finding>
    ensures { ReadsLists sizes.now plan.now (held sides.old codes.old places.old) (held sides.new codes.new places.new) result }
{
    check_room(sides.len(), codes.len(), places.len())?;
    clear_all(sides, codes, places);
    let read = read_all(sizes, plan, sides, codes, places);
    if read.is_err() {
        clear_all(sides, codes, places);
    }
    read
}

// Reads the sizes and the plan into the lists, and answers the head, the number of modules and
// where the script starts; or the first fault of the lists' room and the two sheets.
// The sheets are no struct: each contract speaks of one or the other, and a fault borrows only the one it names.
pub fn parse<'a>(
    sizes: &'a [u8],
    plan: &'a [u8],
    sides: &mut [Sides<Plain>],
    codes: &mut [u8],
    places: &mut [usize],
) -> Result<Parsed, Fault<'a>>
    ensures answer { Answers sizes.entry plan.entry (held sides.old codes.old places.old) result }
    ensures lists { Leaves sizes.now plan.now (held sides.old codes.old places.old) (held sides.new codes.new places.new) }
    ensures law { FirstOf sizes.entry plan.entry (held sides.old codes.old places.old) result }
{
    read_lists(sizes, plan, sides, codes, places).map_err(|finding| finding.lend_from(sizes, plan))
}
