// The sequence pair as a representation.
ghost use Rattle.sequence_pairs.specs.Meaning.{meant};
ghost use Rattle.sequence_pairs.specs.ToldLemmas.{meant_feasible};

use crate::pair::SequencePair;
use closure_graphs::ClosureGraphs;
use plans::{ChangeRefusal, Direction, LoadRefusal};
use representations::Representation;
use table_tests::TwoGraphs;

impl Representation for SequencePair {
    ghost means = { meant };

    ghost feasible = { λ x. meant_feasible x };

    fn modules(&self) -> usize {
        self.packing.count
    }

    fn direction(&self, i: usize, j: usize) -> Option<Direction> {
        let count = self.packing.count;
        if i >= count || j >= count {
            return None;
        }
        if !self.packing.precedes(i, j) {
            None
        } else if self.other.precedes(i, j) {
            Some(Direction::Right)
        } else {
            Some(Direction::Above)
        }
    }

    fn module_at(&self, place: usize) -> Option<usize> {
        self.packing.module_at(place)
    }

    fn load(&mut self, codes: &[u8], sequence: &[usize]) -> Result<(), LoadRefusal> {
        *self = SequencePair::of_graphs(&ClosureGraphs::loaded(codes, sequence)?);
        Ok(())
    }

    fn to_graphs(&self) -> ClosureGraphs {
        let packing = self.packing.followers();
        let other = self.other.followers();
        ClosureGraphs {
            size: self.packing.count,
            graphs: TwoGraphs {
                right: packing.intersection(&other),
                above: packing.minus(&other),
            },
            sequence: self.packing.modules,
        }
    }

    fn load_graphs(&mut self, graphs: &ClosureGraphs) -> Result<(), LoadRefusal> {
        *self = SequencePair::of_graphs(graphs);
        Ok(())
    }

    fn swap(&mut self, a: usize, b: usize) -> Result<(), ChangeRefusal> {
        let mut graphs = self.to_graphs();
        graphs.swap(a, b)?;
        *self = SequencePair::of_graphs(&graphs);
        Ok(())
    }

    fn reverse(&mut self, a: usize, b: usize) -> Result<(), ChangeRefusal> {
        let mut graphs = self.to_graphs();
        graphs.reverse(a, b)?;
        *self = SequencePair::of_graphs(&graphs);
        Ok(())
    }

    fn move_edge(&mut self, a: usize, b: usize) -> Result<(), ChangeRefusal> {
        let mut graphs = self.to_graphs();
        graphs.move_edge(a, b)?;
        *self = SequencePair::of_graphs(&graphs);
        Ok(())
    }
}
