// Setting the caller's lists to zero.
ghost use Rattle.sheets.specs.Lists.{Cleared, blank_sides};

use lengths::{Plain, Sides};

// Sets every place of the three lists to zero.
pub(crate) fn clear_all(sides: &mut [Sides<Plain>], codes: &mut [u8], places: &mut [usize])
    ensures sides { Cleared blank_sides sides.new }
    ensures codes { Cleared 0 codes.new }
    ensures places { Cleared 0 places.new }
{
    sides.fill(Sides {
        width: Plain(0),
        height: Plain(0),
    });
    codes.fill(0);
    places.fill(0);
}
