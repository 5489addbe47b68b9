// The chip around placed modules.
ghost use Rattle.std.specs.Prelude.{◌≡◌, fold};
ghost use Rattle.packing.specs.Corners.{far_corner, chip_to, chip_around};

use crate::pin::Corner;
use lengths::Length;
use plans::{Chip, Placed};

// The chip that ends at a far corner.
fn chip_to<L: Length>(far: Corner<L>) -> Chip<L>
    ensures { result ≡ chip_to L.Length.kind far }
{
    Chip {
        width: far.across,
        height: far.up,
        area: u64::from(far.across.extent()) * u64::from(far.up.extent()),
    }
}

// The chip around all modules of a list.
pub(crate) fn chip_around<L: Length>(modules: &[Placed<L>]) -> Chip<L>
    ensures { result ≡ chip_around L.Length.kind modules.now }
{
    let far = modules.iter().fold(
        Corner::origin(),
        |far, module| far.join(Corner::far_of(module)),
    );
    chip_to(far)
}
