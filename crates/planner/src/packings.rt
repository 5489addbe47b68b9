// Packings of a plan, in any kind of length; they leave the plan.
ghost use Rattle.packing.specs.Calls.{ShowsPacking, ShowsLongest, ShowsPinned};
ghost use Rattle.plans.specs.Model.{task_at};
ghost use Rattle.plans.specs.Packing.{rotated_task};
ghost use Rattle.planner.specs.Calls.{PacksPlan, PacksPlanPinned, PacksPlanRotated};
ghost use Rattle.planner.specs.States.{state_of};

use crate::plan::Plan;
use lengths::Length;
use packing::Pin;
use plans::{Chip, PackRefusal, PinnedRefusal, Placed, RotationRefusal, Sides};
use representations::Representation;

impl<R: Representation> Plan<R> {
    /// Packs the modules and writes a record of each into the list; answers the chip. A refused packing leaves the list.
    pub fn pack<L: Length>(
        &self,
        sides: &[Sides<L>],
        results: &mut [Placed<L>],
    ) -> Result<Chip<L>, PackRefusal>
        ensures model { PacksPlan L.Length.kind self.now sides.now results.old result results.new }
        ensures least { ShowsPacking L.Length.kind (task_at (state_of self.now) sides.now) results.old result results.new }
        ensures longest { ShowsLongest L.Length.kind (task_at (state_of self.now) sides.now) results.old result results.new }
    {
        self.current.job(sides).pack(results)
    }

    /// Packs with one module pinned at a point. Where no placement has it there, the list holds the packing without the
    /// pin; any other refusal leaves the list.
    pub fn pack_pinned<L: Length>(
        &self,
        sides: &[Sides<L>],
        results: &mut [Placed<L>],
        pin: Pin<L>,
    ) -> Result<Chip<L>, PinnedRefusal>
        ensures model { PacksPlanPinned L.Length.kind self.now sides.now results.old pin result results.new }
        ensures least { ShowsPinned L.Length.kind (task_at (state_of self.now) sides.now) results.old pin result results.new }
    {
        self.current.job(sides).pack_pinned(results, pin)
    }

    /// Packs as if one module were rotated once more; which modules are rotated stays. A refused packing leaves the list.
    pub fn pack_with_rotation<L: Length>(
        &self,
        sides: &[Sides<L>],
        results: &mut [Placed<L>],
        module: usize,
    ) -> Result<Chip<L>, RotationRefusal>
        ensures model { PacksPlanRotated L.Length.kind self.now sides.now results.old «module» result results.new }
        ensures least { ShowsPacking L.Length.kind (rotated_task (task_at (state_of self.now) sides.now) «module») results.old result results.new }
        ensures longest { ShowsLongest L.Length.kind (rotated_task (task_at (state_of self.now) sides.now) «module») results.old result results.new }
    {
        self.current.job(sides).pack_with_rotation(results, module)
    }
}
