// The two graphs after a change, or its first refusal.
ghost use Rattle.std.specs.Prelude.{◌≡◌};
ghost use Rattle.closure_graphs.specs.Meaning.{graphs_mean, EdgeFound, Redrawn, Refitted};
ghost use Rattle.closure_graphs.specs.Shown.{graph_along};
ghost use Rattle.plans.specs.declared.change.Change.TheVariants.{Swap, Reverse, MoveEdge};

use crate::closure_graphs::ClosureGraphs;
use crate::edge::Edge;
use crate::modules::two_modules;
use graphs::Graph;
use plans::{ChangeRefusal, Direction};
use table_tests::TwoGraphs;

// The graph of a direction.
fn along(graphs: &TwoGraphs, direction: Direction) -> &Graph
    ensures { result.now ≡ graph_along direction graphs.now }
{
    match direction {
        Direction::Right => &graphs.right,
        Direction::Above => &graphs.above,
    }
}

impl ClosureGraphs {
    // The direction of the reduction edge (a, b), or the first refusal of a change of it. It makes no edge of it, so that
    // a refusal copies no graph.
    fn reduction_edge(&self, a: usize, b: usize) -> Result<Direction, ChangeRefusal>
        ensures { EdgeFound self.now a b result }
    {
        two_modules(self.size, a, b)?;
        let direction = self.direction(a, b).ok_or(ChangeRefusal::NoEdge)?;
        if along(&self.graphs, direction).two_steps(a).contains(b) {
            return Err(ChangeRefusal::NoReductionEdge);
        }
        Ok(direction)
    }

    // The graphs with a and b in each other's place.
    pub(crate) fn swapped(&self, a: usize, b: usize) -> Result<TwoGraphs, ChangeRefusal>
        ensures { Redrawn (graphs_mean self.now) (Swap a b) result }
    {
        two_modules(self.size, a, b)?;
        let mut graphs = self.graphs;
        graphs.right.swap(a, b);
        graphs.above.swap(a, b);
        Ok(graphs)
    }

    // The graphs with (a, b) turned round in its graph.
    pub(crate) fn reversed(&self, a: usize, b: usize) -> Result<TwoGraphs, ChangeRefusal>
        ensures drawn { Redrawn (graphs_mean self.now) (Reverse a b) result }
        ensures fitted { Refitted (graphs_mean self.now) (Reverse a b) result }
    {
        let direction = self.reduction_edge(a, b)?;
        let mut edge = Edge::new(self.graphs, direction, a, b);
        edge.reverse();
        Ok(edge.graphs())
    }

    // The graphs with (a, b) moved to the other graph.
    pub(crate) fn moved(&self, a: usize, b: usize) -> Result<TwoGraphs, ChangeRefusal>
        ensures { Redrawn (graphs_mean self.now) (MoveEdge a b) result }
    {
        let direction = self.reduction_edge(a, b)?;
        let mut edge = Edge::new(self.graphs, direction, a, b);
        edge.move_over();
        Ok(edge.graphs())
    }
}
