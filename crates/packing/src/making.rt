// Packings with no pin, which nothing refuses.
ghost use Rattle.std.specs.Prelude.{◌≡◌, None};
ghost use Rattle.plans.specs.PackingCalls.{pack_refusal, rotation_refusal};
ghost use Rattle.packing.specs.Calls.{PacksFreely, PacksOnceMore};
ghost use Rattle.packing.specs.Tasks.{task_of};

use crate::chip::chip_around;
use crate::job::Job;
use lengths::Length;
use plans::{Chip, Placed};
use representations::Representation;

impl<'a, R: Representation, L: Length> Job<'a, R, L> {
    // Packs with no pin, and answers the chip.
    pub(crate) fn pack_freely(&self, results: &mut [Placed<L>]) -> Chip<L>
        requires { pack_refusal L.Length.kind (task_of R.Representation.means self.now) results.old ≡ None }
        ensures { PacksFreely L.Length.kind (task_of R.Representation.means self.now) results.old result results.new }
    {
        self.place_all(None, results);
        chip_around(&results[..self.representation.modules()])
    }

    // Packs with one module rotated once more, and answers the chip.
    pub(crate) fn pack_once_more(&self, results: &mut [Placed<L>], module: usize) -> Chip<L>
        requires { rotation_refusal L.Length.kind (task_of R.Representation.means self.now) results.old «module» ≡ None }
        ensures { PacksOnceMore L.Length.kind (task_of R.Representation.means self.now) results.old «module» result results.new }
    {
        let looked = Job {
            rotated: self.rotated.toggled(module),
            ..*self
        };
        looked.pack_freely(results)
    }
}
