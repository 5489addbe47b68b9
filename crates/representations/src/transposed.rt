// A representation over another, with the two axes exchanged.
ghost use Rattle.std.specs.Prelude.{◌≡◌};
ghost use Rattle.plans.specs.Transposed.{transpose};
ghost use Rattle.plans.proofs.TransposeLaw.{transpose_law};

use crate::representation::Representation;
use closure_graphs::ClosureGraphs;
use plans::{ChangeRefusal, Direction, LoadRefusal};

/// What the inner representation means, with codes 1 and 2 exchanged and the same sequence.
#[derive(Drop)]
pub struct Transposed<R>(pub R);

impl<R: Representation> Representation for Transposed<R> {
    ghost means = { λ t. transpose (R.Representation.means t.0) };

    ghost feasible = { λ x. transpose_law.feasible (R.Representation.means x.0) (R.Representation.feasible x.0) };

    fn modules(&self) -> usize {
        self.0.modules()
    }

    fn direction(&self, i: usize, j: usize) -> Option<Direction> {
        self.0.direction(i, j).map(Direction::turned)
    }

    fn module_at(&self, place: usize) -> Option<usize> {
        self.0.module_at(place)
    }

    fn load(&mut self, codes: &[u8], sequence: &[usize]) -> Result<(), LoadRefusal> {
        self.load_graphs(&ClosureGraphs::loaded(codes, sequence)?)
    }

    fn to_graphs(&self) -> ClosureGraphs {
        self.0.to_graphs().transposed()
    }

    fn load_graphs(&mut self, graphs: &ClosureGraphs) -> Result<(), LoadRefusal> {
        self.0.load_graphs(&graphs.transposed())
    }

    fn swap(&mut self, a: usize, b: usize) -> Result<(), ChangeRefusal> {
        self.0.swap(a, b)
    }

    fn reverse(&mut self, a: usize, b: usize) -> Result<(), ChangeRefusal> {
        self.0.reverse(a, b)
    }

    fn move_edge(&mut self, a: usize, b: usize) -> Result<(), ChangeRefusal> {
        self.0.move_edge(a, b)
    }
}
