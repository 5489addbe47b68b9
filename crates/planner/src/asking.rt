// What one may ask of a plan, and how it ends.
ghost use Rattle.std.specs.Prelude.{◌≡◌};
ghost use Rattle.plans.specs.Calls.{how_many, code_between, module_in, whether_rotated, whether_on_trial};
ghost use Rattle.planner.specs.Calls.{Replies};
ghost use Rattle.planner.specs.States.{state_of};

use crate::current::Current;
use crate::plan::Plan;
use representations::Representation;

impl<R: Representation> Plan<R> {
    /// How many modules there are.
    pub fn modules(&self) -> usize
        ensures { Replies self.now how_many result }
    {
        self.current.representation.modules()
    }

    /// 1 where i is left of j, 2 where i is below j, else 0, also outside the plan: the byte that a load takes.
    pub fn code(&self, i: usize, j: usize) -> u8
        ensures { Replies self.now (code_between i j) result }
    {
        self.current.representation.code(i, j)
    }

    /// The module at a place of the packing sequence, none outside it.
    pub fn module_at(&self, place: usize) -> Option<usize>
        ensures { Replies self.now (module_in place) result }
    {
        self.current.representation.module_at(place)
    }

    /// Whether a module is rotated.
    pub fn is_rotated(&self, module: usize) -> bool
        ensures { Replies self.now (whether_rotated «module») result }
    {
        self.current.rotated.contains(module)
    }

    /// Whether a trial is open.
    pub fn is_on_trial(&self) -> bool
        ensures { Replies self.now whether_on_trial result }
    {
        self.trial.is_some()
    }

    /// Ends the plan and gives its representation. The change of an open trial stays in it, and its decision at hand.
    pub fn into_representation(self) -> R
        ensures { R.Representation.means result ≡ (state_of self).current.plan }
    {
        let Plan { current, trial: _ } = self;
        let Current {
            representation,
            rotated: _,
        } = current;
        representation
    }
}
