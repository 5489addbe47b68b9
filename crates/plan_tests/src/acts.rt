// A representation of nothing but the acts.
ghost use Rattle.std.specs.Prelude.{◌≡◌};

use plans::{ChangeRefusal, Direction, LoadRefusal};
use representations::Representation;

/// Another representation, of which only the functions without a body are passed on, so that what the trait makes of
/// them does the rest.
#[derive(Drop)]
pub struct Acts<R>(pub R);

impl<R: Representation> Representation for Acts<R> {
    ghost means = { λ x. R.Representation.means x.0 };

    ghost feasible = { λ x. R.Representation.feasible x.0 };

    fn modules(&self) -> usize {
        self.0.modules()
    }

    fn direction(&self, i: usize, j: usize) -> Option<Direction> {
        self.0.direction(i, j)
    }

    fn module_at(&self, place: usize) -> Option<usize> {
        self.0.module_at(place)
    }

    fn load(&mut self, codes: &[u8], sequence: &[usize]) -> Result<(), LoadRefusal> {
        self.0.load(codes, sequence)
    }

    fn swap(&mut self, a: usize, b: usize) -> Result<(), ChangeRefusal> {
        self.0.swap(a, b)
    }

    fn reverse(&mut self, a: usize, b: usize) -> Result<(), ChangeRefusal> {
        self.0.reverse(a, b)
    }

    fn move_edge(&mut self, a: usize, b: usize) -> Result<(), ChangeRefusal> {
        self.0.move_edge(a, b)
    }
}
