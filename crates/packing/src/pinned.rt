// Packings with a module pinned, which nothing refuses but "no place".
ghost use Rattle.std.specs.Prelude.{◌≡◌, None};
ghost use Rattle.plans.specs.PackingCalls.{pin_refusal};
ghost use Rattle.packing.specs.Calls.{PacksAt};
ghost use Rattle.packing.specs.Tasks.{task_of};

use crate::chip::chip_around;
use crate::job::Job;
use crate::pin::Pin;
use lengths::Length;
use plans::{Chip, Placed};
use representations::Representation;

impl<'a, R: Representation, L: Length> Job<'a, R, L> {
    // Packs with a module pinned, and answers the chip; or, where there is no place, packs with no pin.
    pub(crate) fn pack_at(&self, results: &mut [Placed<L>], pin: Pin<L>) -> Option<Chip<L>>
        requires { pin_refusal L.Length.kind (task_of R.Representation.means self.now) results.old pin.«module» pin.across pin.up ≡ None }
        ensures { PacksAt L.Length.kind (task_of R.Representation.means self.now) results.old pin result results.new }
    {
        if self.place_all(Some(pin), results) {
            return Some(chip_around(&results[..self.representation.modules()]));
        }
        self.place_all(None, results);
        None
    }
}
