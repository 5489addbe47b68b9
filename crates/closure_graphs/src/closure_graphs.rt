// Two closure graphs with their packing sequence.
ghost use Rattle.std.specs.Prelude.{◌≡◌, ◌≤◌, true, length};
ghost use Rattle.closure_graphs.specs.Sound.{graphs_plan};
ghost use Rattle.plans.specs.Tables.{table_in};
ghost use Rattle.plans.specs.Tests.{loadable};
ghost use Rattle.table_tests.specs.Tested.{Shows};

use crate::fitting::fitting_sequence;
use crate::places::swap_entries;
use graphs::Graph;
use plans::{ChangeRefusal, Direction, LoadRefusal};
use table_tests::{TwoGraphs, tested_graphs};

/// A feasible floorplan as rows of sets: the modules right of each and above each, and the first `size` places of the
/// packing sequence. The fields are open, but no value of them can be made that is not feasible, or in which a graph
/// has an edge too many or too few. The list has room for 64, since a change may not use the heap.
#[derive(Clone, Copy)]
pub struct ClosureGraphs {
    pub size: usize,
    pub graphs: TwoGraphs,
    pub sequence: [usize; 64],
    ghost few: { size ≤ 64 },
    ghost long: { length sequence ≡ 64 },
    ghost feasible: { loadable (graphs_plan size graphs sequence) ≡ true },
    ghost beside: { Shows (table_in (graphs_plan size graphs sequence)) 1 graphs.right },
    ghost over: { Shows (table_in (graphs_plan size graphs sequence)) 2 graphs.above },
}

impl ClosureGraphs {
    ghost use Rattle.std.specs.Prelude.{◌*◌, take};
    ghost use Rattle.closure_graphs.specs.Meaning.{graphs_mean, GraphsLoaded};
    ghost use Rattle.plans.specs.Changes.{Follows, after_change};
    ghost use Rattle.plans.specs.Directions.{code_told};
    ghost use Rattle.plans.specs.Tables.{module_at, no_modules};
    ghost use Rattle.plans.specs.Transposed.{transpose};
    ghost use Rattle.plans.specs.declared.change.Change.TheVariants.{Swap, Reverse, MoveEdge};

    /// A plan of no modules.
    pub fn new() -> ClosureGraphs
        ensures { graphs_mean result ≡ no_modules }
    {
        ClosureGraphs {
            size: 0,
            graphs: TwoGraphs {
                right: Graph::empty(),
                above: Graph::empty(),
            },
            sequence: [0; 64],
        }
    }

    /// What a load of a table, row after row, with its packing sequence gives, or its first refusal.
    pub fn loaded(codes: &[u8], sequence: &[usize]) -> Result<ClosureGraphs, LoadRefusal>
        ensures { GraphsLoaded codes.now sequence.now result }
    {
        let graphs = tested_graphs(codes, sequence)?;
        // Fixed room, since a load may not use the heap.
        let mut padded = [0; 64];
        padded[..sequence.len()].copy_from_slice(sequence);
        Ok(ClosureGraphs {
            size: sequence.len(),
            graphs,
            sequence: padded,
        })
    }

    /// Where j lies from i, if there is an edge from i to j; none outside the plan.
    pub fn direction(&self, i: usize, j: usize) -> Option<Direction>
        ensures { code_told result ≡ table_in (graphs_mean self.now) i j }
    {
        if self.graphs.right.has_edge(i, j) {
            Some(Direction::Right)
        } else if self.graphs.above.has_edge(i, j) {
            Some(Direction::Above)
        } else {
            None
        }
    }

    /// 1 where i is left of j, 2 where i is below j, else 0, also outside the plan: the byte that a load takes.
    pub fn code(&self, i: usize, j: usize) -> u8
        ensures { result ≡ table_in (graphs_mean self.now) i j }
    {
        self.direction(i, j).map_or(0, u8::from)
    }

    /// The module at a place of the packing sequence, none outside it.
    pub fn module_at(&self, place: usize) -> Option<usize>
        ensures { result ≡ module_at (graphs_mean self.now) place }
    {
        self.sequence[..self.size].get(place).copied()
    }

    /// Lets two modules take each other's place in both graphs and in the sequence; a refused swap leaves both.
    pub fn swap(&mut self, a: usize, b: usize) -> Result<(), ChangeRefusal>
        ensures { Follows (after_change (graphs_mean self.old) (Swap a b)) result (graphs_mean self.old) (graphs_mean self.new) }
    {
        self.graphs = self.swapped(a, b)?;
        swap_entries(&mut self.sequence, a, b);
        Ok(())
    }

    /// Turns the reduction edge (a, b) round in its graph; a refused reverse leaves both graphs.
    pub fn reverse(&mut self, a: usize, b: usize) -> Result<(), ChangeRefusal>
        ensures { Follows (after_change (graphs_mean self.old) (Reverse a b)) result (graphs_mean self.old) (graphs_mean self.new) }
    {
        let reversed = self.reversed(a, b)?;
        self.sequence = fitting_sequence(self.size, &reversed);
        self.graphs = reversed;
        Ok(())
    }

    /// Moves the reduction edge (a, b) to the other graph; a refused move leaves both.
    pub fn move_edge(&mut self, a: usize, b: usize) -> Result<(), ChangeRefusal>
        ensures { Follows (after_change (graphs_mean self.old) (MoveEdge a b)) result (graphs_mean self.old) (graphs_mean self.new) }
    {
        self.graphs = self.moved(a, b)?;
        Ok(())
    }

    /// The same with the two axes exchanged.
    pub fn transposed(&self) -> ClosureGraphs
        ensures { graphs_mean result ≡ transpose (graphs_mean self.now) }
    {
        ClosureGraphs {
            size: self.size,
            graphs: TwoGraphs {
                right: self.graphs.above,
                above: self.graphs.right,
            },
            sequence: self.sequence,
        }
    }

    /// The codes, row after row, as a load takes them, and nothing of meaning after them.
    pub fn codes(&self) -> [u8; 4096]
        ensures { take ((graphs_mean self.now).size * (graphs_mean self.now).size) result ≡ (graphs_mean self.now).codes }
    {
        // Fixed room, since a change may not use the heap.
        let mut codes = [0; 4096];
        for i in 0..self.size {
            for j in 0..self.size {
                codes[i * self.size + j] = self.code(i, j);
            }
        }
        codes
    }
}
