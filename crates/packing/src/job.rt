// What is packed, and the packing calls: first refusals, then the least placement.
use crate::pin::Pin;
use lengths::Length;
use module_set::ModuleSet;
use plans::{Chip, PackRefusal, PinnedRefusal, Placed, RotationRefusal, Sides};
use representations::Representation;

// A floorplan, the modules of it that are rotated, and the sides of each module as it lies unrotated.
#[derive_where(Clone, Copy)]
pub struct Job<'a, R, L> {
    pub representation: &'a R,
    pub rotated: ModuleSet,
    pub sides: &'a [Sides<L>],
}

impl<'a, R: Representation, L: Length> Job<'a, R, L> {
    ghost use Rattle.plans.specs.Packing.{rotated_task};
    ghost use Rattle.packing.specs.Calls.{Packs, PacksPinned, PacksRotated, ShowsPacking, ShowsLongest, ShowsPinned};
    ghost use Rattle.packing.specs.Tasks.{task_of};

    // Packs the modules and writes a record of each into the list; answers the chip.
    pub fn pack(&self, results: &mut [Placed<L>]) -> Result<Chip<L>, PackRefusal>
        ensures outcome { Packs L.Length.kind (task_of R.Representation.means self.now) results.old result results.new }
        ensures least { ShowsPacking L.Length.kind (task_of R.Representation.means self.now) results.old result results.new }
        ensures longest { ShowsLongest L.Length.kind (task_of R.Representation.means self.now) results.old result results.new }
    {
        self.check_sides(results)?;
        Ok(self.pack_freely(results))
    }

    // Packs with one module pinned at a point. Where no placement has it there, the list holds the packing
    // without the pin.
    pub fn pack_pinned(
        &self,
        results: &mut [Placed<L>],
        pin: Pin<L>,
    ) -> Result<Chip<L>, PinnedRefusal>
        ensures outcome { PacksPinned L.Length.kind (task_of R.Representation.means self.now) results.old pin result results.new }
        ensures least { ShowsPinned L.Length.kind (task_of R.Representation.means self.now) results.old pin result results.new }
    {
        self.check_pin(results, pin)?;
        self.pack_at(results, pin).ok_or(PinnedRefusal::NoPlace)
    }

    // Packs as if one module were rotated once more.
    pub fn pack_with_rotation(
        &self,
        results: &mut [Placed<L>],
        module: usize,
    ) -> Result<Chip<L>, RotationRefusal>
        ensures outcome { PacksRotated L.Length.kind (task_of R.Representation.means self.now) results.old «module» result results.new }
        ensures least { ShowsPacking L.Length.kind (rotated_task (task_of R.Representation.means self.now) «module») results.old result results.new }
        ensures longest { ShowsLongest L.Length.kind (rotated_task (task_of R.Representation.means self.now) «module») results.old result results.new }
    {
        self.check_rotation(results, module)?;
        Ok(self.pack_once_more(results, module))
    }
}
