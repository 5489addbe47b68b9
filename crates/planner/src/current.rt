// The floorplan that is current, with its rotated modules.
ghost use Rattle.std.specs.Prelude.{◌≡◌};
ghost use Rattle.plans.specs.Changes.{Follows, after_load, after_change};
ghost use Rattle.module_set.specs.Members.{member};
ghost use Rattle.packing.specs.Tasks.{task_of};
ghost use Rattle.planner.specs.Layouts.{Unrotates, Rotates};

use lengths::Length;
use module_set::ModuleSet;
use packing::Job;
use plans::{Change, ChangeRefusal, LoadRefusal, Sides};
use representations::Representation;

// A representation, and the modules that are rotated.
#[derive(Drop)]
pub(crate) struct Current<R> {
    pub(crate) representation: R,
    pub(crate) rotated: ModuleSet,
}

impl<R: Representation> Current<R> {
    // Loads a floorplan and leaves no module rotated; a refused load leaves both.
    pub(crate) fn load(&mut self, codes: &[u8], sequence: &[usize]) -> Result<(), LoadRefusal>
        ensures plan { Follows (after_load codes.now sequence.now) result (R.Representation.means self.old.representation) (R.Representation.means self.new.representation) }
        ensures rotated { Unrotates result (member self.old.rotated) (member self.new.rotated) }
    {
        self.representation.load(codes, sequence)?;
        self.rotated = ModuleSet::empty();
        Ok(())
    }

    // Makes a change of the floorplan or of the rotated modules; a refused one leaves both.
    pub(crate) fn apply(&mut self, change: Change) -> Result<(), ChangeRefusal>
        ensures plan { Follows (after_change (R.Representation.means self.old.representation) change) result (R.Representation.means self.old.representation) (R.Representation.means self.new.representation) }
        ensures rotated { Rotates change result (member self.old.rotated) (member self.new.rotated) }
    {
        match change {
            Change::Rotate(module) if module < self.representation.modules() => {
                self.rotated = self.rotated.toggled(module);
                Ok(())
            }
            Change::Rotate(_) => Err(ChangeRefusal::NoModule),
            Change::Swap(a, b) => self.representation.swap(a, b),
            Change::Reverse(a, b) => self.representation.reverse(a, b),
            Change::MoveEdge(a, b) => self.representation.move_edge(a, b),
        }
    }

    // What a packing with these sides packs.
    pub(crate) fn job<'a, L: Length>(&'a self, sides: &'a [Sides<L>]) -> Job<'a, R, L>
        ensures { task_of R.Representation.means result ≡ record { plan = R.Representation.means self.now.representation; rotated = member self.now.rotated; sides = sides.now } }
    {
        Job {
            representation: &self.representation,
            rotated: self.rotated,
            sides,
        }
    }
}
