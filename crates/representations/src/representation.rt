// The trait of all representations.
ghost use Rattle.std.specs.Prelude.{◌≡◌};
ghost use Rattle.closure_graphs.specs.Meaning.{graphs_mean};
ghost use Rattle.plans.specs.Changes.{Follows, after_load, after_change};
ghost use Rattle.plans.specs.Directions.{code_told};
ghost use Rattle.plans.specs.Tables.{Floorplan, Feasible, table_in, module_at};
ghost use Rattle.plans.specs.declared.change.Change.TheVariants.{Swap, Reverse, MoveEdge};

use closure_graphs::ClosureGraphs;
use graphs::Graph;
use module_set::ModuleSet;
use plans::{ChangeRefusal, Direction, LoadRefusal};
use table_tests::TwoGraphs;

/// What stands for one feasible floorplan. Asking changes nothing; a load or a change answers its first refusal and
/// keeps what is meant, or is done and means what the definitions give. What has a body here is made of the other
/// functions, so a representation need not write it, and may where it can be done in fewer steps.
pub trait Representation {
    ghost means: { Self → Floorplan };

    /// How many modules there are.
    fn modules(&self) -> usize
        ensures { result ≡ (means self.now).size };

    /// Where j lies from i, if there is an edge from i to j; none outside the plan.
    fn direction(&self, i: usize, j: usize) -> Option<Direction>
        ensures { code_told result ≡ table_in (means self.now) i j };

    /// 1 where i is left of j, 2 where i is below j, else 0, also outside the plan: the byte that a load takes.
    fn code(&self, i: usize, j: usize) -> u8
        ensures { result ≡ table_in (means self.now) i j }
    {
        self.direction(i, j).map_or(0, u8::from)
    }

    /// The module at a place of the packing sequence, none outside it.
    fn module_at(&self, place: usize) -> Option<usize>
        ensures { result ≡ module_at (means self.now) place };

    /// Puts in a table, row after row, with its packing sequence.
    fn load(&mut self, codes: &[u8], sequence: &[usize]) -> Result<(), LoadRefusal>
        ensures { Follows (after_load codes.now sequence.now) result (means self.old) (means self.new) };

    /// The floorplan as closure graphs.
    fn to_graphs(&self) -> ClosureGraphs
        ensures { graphs_mean result ≡ means self.now }
    {
        let size = self.modules();
        let mut right = Graph::empty();
        let mut above = Graph::empty();
        for i in 0..size {
            let mut beside = ModuleSet::empty();
            let mut over = ModuleSet::empty();
            for j in 0..size {
                match self.direction(i, j) {
                    Some(Direction::Right) => beside = beside.with(j),
                    Some(Direction::Above) => over = over.with(j),
                    None => {}
                }
            }
            right.set_successors(i, beside);
            above.set_successors(i, over);
        }
        // Fixed room, since a change may not use the heap.
        let mut sequence = [0; 64];
        for place in 0..size {
            sequence[place] = self.module_at(place).unwrap();
        }
        ClosureGraphs {
            size,
            graphs: TwoGraphs { right, above },
            sequence,
        }
    }

    /// Puts in what closure graphs mean, as a load of their codes with their sequence does.
    fn load_graphs(&mut self, graphs: &ClosureGraphs) -> Result<(), LoadRefusal>
        ensures { Follows (after_load (graphs_mean graphs.now).codes (graphs_mean graphs.now).sequence) result (means self.old) (means self.new) }
    {
        let codes = graphs.codes();
        self.load(
            &codes[..graphs.size * graphs.size],
            &graphs.sequence[..graphs.size],
        )
    }

    /// Lets two modules take each other's place in both graphs and in the sequence.
    fn swap(&mut self, a: usize, b: usize) -> Result<(), ChangeRefusal>
        ensures { Follows (after_change (means self.old) (Swap a b)) result (means self.old) (means self.new) };

    /// Turns the reduction edge (a, b) round in its graph.
    fn reverse(&mut self, a: usize, b: usize) -> Result<(), ChangeRefusal>
        ensures { Follows (after_change (means self.old) (Reverse a b)) result (means self.old) (means self.new) };

    /// Moves the reduction edge (a, b) to the other graph.
    fn move_edge(&mut self, a: usize, b: usize) -> Result<(), ChangeRefusal>
        ensures { Follows (after_change (means self.old) (MoveEdge a b)) result (means self.old) (means self.new) };

    ghost feasible: { (x : Self) → Feasible (means x) };
}
