// Closure graphs as a representation.
ghost use Rattle.closure_graphs.specs.Meaning.{graphs_mean};
ghost use Rattle.closure_graphs.specs.Settled.{plan_feasible};

use crate::representation::Representation;
use closure_graphs::ClosureGraphs;
use plans::{ChangeRefusal, Direction, LoadRefusal};

impl Representation for ClosureGraphs {
    ghost means = { graphs_mean };

    ghost feasible = { λ x. plan_feasible x.size x.graphs x.sequence x.few x.long x.feasible };

    fn modules(&self) -> usize {
        self.size
    }

    fn direction(&self, i: usize, j: usize) -> Option<Direction> {
        self.direction(i, j)
    }

    fn module_at(&self, place: usize) -> Option<usize> {
        self.module_at(place)
    }

    fn load(&mut self, codes: &[u8], sequence: &[usize]) -> Result<(), LoadRefusal> {
        *self = ClosureGraphs::loaded(codes, sequence)?;
        Ok(())
    }

    fn to_graphs(&self) -> ClosureGraphs {
        *self
    }

    fn load_graphs(&mut self, graphs: &ClosureGraphs) -> Result<(), LoadRefusal> {
        *self = *graphs;
        Ok(())
    }

    fn swap(&mut self, a: usize, b: usize) -> Result<(), ChangeRefusal> {
        self.swap(a, b)
    }

    fn reverse(&mut self, a: usize, b: usize) -> Result<(), ChangeRefusal> {
        self.reverse(a, b)
    }

    fn move_edge(&mut self, a: usize, b: usize) -> Result<(), ChangeRefusal> {
        self.move_edge(a, b)
    }
}
