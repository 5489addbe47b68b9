// What stands in a result list before a packing.
ghost use Rattle.std.specs.Prelude.{◌≡◌};
ghost use Rattle.plans.specs.Packing.{at_origin};

use lengths::Length;
use plans::Placed;

// A record with all its edges at the kind's zero.
pub fn unplaced<L: Length>() -> Placed<L>
    ensures { result ≡ at_origin L.Length.kind }
{
    Placed {
        left: L::ZERO,
        bottom: L::ZERO,
        right: L::ZERO,
        top: L::ZERO,
    }
}
