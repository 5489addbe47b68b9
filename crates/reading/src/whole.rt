// Reading as a whole: the two sheets into the caller's lists and a representation.
ghost use Rattle.std.specs.Prelude.{◌≡◌};
ghost use Rattle.reading.specs.Outcome.{Answered, FirstRead, first_fault, means_after};
ghost use Rattle.sheets.specs.Parsing.{Leaves, held};

use crate::refused::refused;
use lengths::{Plain, Sides};
use representations::Representation;
use sheets::{Fault, Parsed, parse};

// Parses the sizes and the plan into the lists and loads the codes and the sequence as written;
// answers what parsing answers, or the first fault of the lists' room, the two sheets or the load.
pub fn read<'a, R: Representation>(
    sizes: &'a [u8],
    plan: &'a [u8],
    representation: &mut R,
    sides: &mut [Sides<Plain>],
    codes: &mut [u8],
    places: &mut [usize],
) -> Result<Parsed, Fault<'a>>
    ensures answer { Answered sizes.entry plan.entry (held sides.old codes.old places.old) result }
    ensures lists { Leaves sizes.now plan.now (held sides.old codes.old places.old) (held sides.new codes.new places.new) }
    ensures meaning { R.Representation.means representation.new ≡ means_after plan.now (first_fault sizes.now plan.now (held sides.old codes.old places.old)) (R.Representation.means representation.old) }
    ensures law { FirstRead sizes.entry plan.entry (held sides.old codes.old places.old) result }
{
    let parsed = parse(sizes, plan, sides, codes, places)?;
    let modules = parsed.modules;
    let loaded = representation.load(&codes[..modules * modules], &places[..modules]);
    loaded.map_err(|refusal| refused(plan, modules, refusal))?;
    Ok(parsed)
}
