// Where a module is free to begin: after all modules that stand before it.
ghost use Rattle.std.specs.Prelude.{◌≡◌, ◌≤◌, length};
ghost use Rattle.plans.specs.Directions.{code_told};
ghost use Rattle.packing.specs.Corners.{next_after};
ghost use Rattle.packing.specs.Steps.{corner_past, free_corner};
ghost use Rattle.packing.specs.Tasks.{task_of};

use crate::job::Job;
use crate::pin::Corner;
use lengths::Length;
use plans::{Direction, Placed};
use representations::Representation;

impl<L: Length> Corner<L> {
    // Where the next module along each axis may begin after a placed one.
    fn next_after(placed: &Placed<L>) -> Corner<L>
        ensures { result ≡ next_after placed.now }
    {
        Corner::far_of(placed)
    }

    // The corner moved past a placed module, if that has an edge to the module that is to begin here.
    fn moved_past(self, edge: Option<Direction>, placed: Placed<L>) -> Corner<L>
        ensures { result ≡ corner_past L.Length.kind self (code_told edge) placed }
    {
        let next = Corner::next_after(&placed);
        match edge {
            Some(Direction::Right) => Corner {
                across: self.across.join(next.across),
                ..self
            },
            Some(Direction::Above) => Corner {
                up: self.up.join(next.up),
                ..self
            },
            None => self,
        }
    }
}

impl<'a, R: Representation, L: Length> Job<'a, R, L> {
    // The free corner of module i, after those at the places before this one, which have their records.
    pub(crate) fn free_corner(&self, place: usize, i: usize, results: &[Placed<L>]) -> Corner<L>
        requires within { place ≤ (task_of R.Representation.means self.now).plan.size }
        requires room { (task_of R.Representation.means self.now).plan.size ≤ length results.now }
        ensures { result ≡ free_corner L.Length.kind (task_of R.Representation.means self.now).plan results.now place i }
    {
        let mut free = Corner::origin();
        // A representation tells its sequence place by place, so there is no slice to go over; the closure of a fold
        // would have to ask of each place that it is one of the plan.
        for earlier in 0..place {
            let j = self.representation.module_at(earlier).unwrap();
            free = free.moved_past(self.representation.direction(j, i), results[j]);
        }
        free
    }
}
