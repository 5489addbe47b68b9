// Sides with one border, in counted lengths.
ghost use Rattle.std.specs.Prelude.{◌≡◌, ◌≤◌, All, length, map, take};
ghost use Rattle.lengths.specs.CountedLengths.{count_of};
ghost use Rattle.listing.specs.Bordered.{PossibleSide, PossibleSides, bordered_sides, in_counts};
ghost use Rattle.listing.specs.Whole.{bordered};
ghost use Rattle.plans.specs.CarriedPackings.{carry_sides};

use lengths::{Counted, Length, Plain};
use plans::Sides;

// A side with one border. That the side is possible is asked from here up: only the range of what a reading leaves in
// the caller's list says so, and that list's type is the caller's.
fn with_border(side: Plain) -> Counted
    requires { PossibleSide side }
    ensures { count_of result ≡ bordered side.0 }
{
    Counted::new(side.0, 1).unwrap()
}

// The sides of one module, each with one border.
fn with_both_borders(sides: &Sides<Plain>) -> Sides<Counted>
    requires { PossibleSides sides.now }
    ensures { carry_sides count_of result ≡ bordered_sides sides.now }
{
    Sides {
        width: with_border(sides.width),
        height: with_border(sides.height),
    }
}

// The sides of the modules of a list, each with one border, in room for as many modules as a plan can have: a listing
// asks for memory for nothing but its bytes.
pub(crate) fn with_borders(sides: &[Sides<Plain>]) -> [Sides<Counted>; 64]
    requires few { length sides.now ≤ 64 }
    requires possible { All PossibleSides sides.now }
    ensures { in_counts (take (length sides.now) result) ≡ map bordered_sides sides.now }
{
    let nothing = Sides {
        width: Counted::ZERO,
        height: Counted::ZERO,
    };
    let mut counted = [nothing; 64];
    for (i, own) in sides.iter().enumerate() {
        counted[i] = with_both_borders(own);
    }
    counted
}
