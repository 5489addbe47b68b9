// What a packing refuses before it writes anything.
ghost use Rattle.std.specs.Prelude.{◌≡◌, ◌&&◌, length};
ghost use Rattle.plans.specs.Kinds.{possible_side};
ghost use Rattle.plans.specs.PackingCalls.{wrong_side, pack_refusal, pin_refusal, rotation_refusal};
ghost use Rattle.plans.specs.Search.{first_below};
ghost use Rattle.packing.specs.Tasks.{task_of, Refuses};

use crate::job::Job;
use crate::pin::Pin;
use lengths::Length;
use plans::{PackRefusal, PinnedRefusal, Placed, RotationRefusal, Sides};
use representations::Representation;

// Whether both sides of a module are possible.
fn are_possible<L: Length>(sides: &Sides<L>) -> bool
    ensures { result ≡ (possible_side L.Length.kind sides.now.width && possible_side L.Length.kind sides.now.height) }
{
    sides.width.is_side() && sides.height.is_side()
}

// The first module one of whose sides is not possible.
fn first_wrong<L: Length>(sides: &[Sides<L>]) -> Option<usize>
    ensures { result ≡ first_below (length sides.now) (wrong_side L.Length.kind sides.now) }
{
    sides.iter().position(|sides| !are_possible(sides))
}

impl<'a, R: Representation, L: Length> Job<'a, R, L> {
    // The first refusal of any packing.
    pub(crate) fn check_sides(&self, results: &[Placed<L>]) -> Result<(), PackRefusal>
        ensures { Refuses (pack_refusal L.Length.kind (task_of R.Representation.means self.now) results.now) result }
    {
        let modules = self.representation.modules();
        if self.sides.len() != modules {
            return Err(PackRefusal::WrongSides);
        }
        if results.len() < modules {
            return Err(PackRefusal::ShortResults);
        }
        first_wrong(self.sides).map_or(Ok(()), |i| Err(PackRefusal::WrongSide(i)))
    }

    // The first refusal of a packing with a module pinned, but for "no place".
    pub(crate) fn check_pin(&self, results: &[Placed<L>], pin: Pin<L>) -> Result<(), PinnedRefusal>
        ensures { Refuses (pin_refusal L.Length.kind (task_of R.Representation.means self.now) results.now pin.«module» pin.across pin.up) result }
    {
        self.check_sides(results)?;
        if self.representation.modules() <= pin.module {
            return Err(PinnedRefusal::NoModule);
        }
        if pin.is_far() {
            return Err(PinnedRefusal::FarPin);
        }
        Ok(())
    }

    // The first refusal of a packing with a module rotated once more.
    pub(crate) fn check_rotation(
        &self,
        results: &[Placed<L>],
        module: usize,
    ) -> Result<(), RotationRefusal>
        ensures { Refuses (rotation_refusal L.Length.kind (task_of R.Representation.means self.now) results.now «module») result }
    {
        self.check_sides(results)?;
        if self.representation.modules() <= module {
            return Err(RotationRefusal::NoModule);
        }
        Ok(())
    }
}
