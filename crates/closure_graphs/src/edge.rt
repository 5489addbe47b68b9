// What a change of an edge does to the graph that has it and to the other one.
ghost use Rattle.std.specs.Prelude.{◌≡◌, ℕ, ◌<◌};
ghost use Rattle.closure_graphs.specs.RowChanges.{cut_edge, toward, onward, reversed_own, reversed_other, moved_own, moved_other};
ghost use Rattle.closure_graphs.specs.Shown.{facing};
ghost use Rattle.graphs.specs.Edges.{edge};
ghost use Rattle.module_set.specs.Members.{member};

use graphs::Graph;
use module_set::ModuleSet;
use plans::Direction;
use table_tests::TwoGraphs;

// An edge from one module to another, with the graph of its direction and the other graph.
#[derive(Clone, Copy)]
pub(crate) struct Edge {
    pub(crate) direction: Direction,
    pub(crate) from: usize,
    pub(crate) to: usize,
    pub(crate) own: Graph,
    pub(crate) other: Graph,
    ghost first: { from < 64 },
    ghost second: { to < 64 },
}

impl Edge {
    // An edge of two graphs.
    pub(crate) fn new(graphs: TwoGraphs, direction: Direction, from: usize, to: usize) -> Edge
        requires first { from < 64 }
        requires second { to < 64 }
        ensures along { result.direction ≡ direction }
        ensures first { result.from ≡ from }
        ensures second { result.to ≡ to }
        ensures graphs { facing result.direction result.own result.other ≡ graphs }
    {
        let (own, other) = match direction {
            Direction::Right => (graphs.right, graphs.above),
            Direction::Above => (graphs.above, graphs.right),
        };
        Edge {
            direction,
            from,
            to,
            own,
            other,
        }
    }

    // The two graphs.
    pub(crate) fn graphs(&self) -> TwoGraphs
        ensures { result ≡ facing self.now.direction self.now.own self.now.other }
    {
        match self.direction {
            Direction::Right => TwoGraphs {
                right: self.own,
                above: self.other,
            },
            Direction::Above => TwoGraphs {
                right: self.other,
                above: self.own,
            },
        }
    }

    // Takes it out of its own graph.
    fn cut(&mut self)
        ensures own { (i j : ℕ) → edge self.new.own i j ≡ cut_edge (edge self.old.own) self.old.from self.old.to i j }
        ensures rest { self.new ≡ record self.old { own = self.new.own } }
    {
        self.own
            .disconnect(ModuleSet::single(self.from), ModuleSet::single(self.to));
    }

    // Turns it round in its own graph, together with what that closes, which the other graph loses.
    pub(crate) fn reverse(&mut self)
        ensures along { self.new.direction ≡ self.old.direction }
        ensures own { (i j : ℕ) → edge self.new.own i j ≡ reversed_own (edge self.old.own) self.old.from self.old.to i j }
        ensures other { (i j : ℕ) → edge self.new.other i j ≡ reversed_other (edge self.old.own) (edge self.old.other) self.old.from self.old.to i j }
    {
        self.cut();
        let from = up_to(&self.own, self.to);
        let to = on_from(&self.own, self.from);
        self.own.connect(from, to);
        self.other.disconnect(from, to);
        self.other.disconnect(to, from);
    }

    // Moves it from its own graph to the other, together with what that closes there.
    pub(crate) fn move_over(&mut self)
        ensures along { self.new.direction ≡ self.old.direction }
        ensures own { (i j : ℕ) → edge self.new.own i j ≡ moved_own (edge self.old.own) (edge self.old.other) self.old.from self.old.to i j }
        ensures other { (i j : ℕ) → edge self.new.other i j ≡ moved_other (edge self.old.other) self.old.from self.old.to i j }
    {
        let from = up_to(&self.other, self.from);
        let to = on_from(&self.other, self.to);
        self.other.connect(from, to);
        self.own.disconnect(from, to);
    }
}

// A module with all that have an edge to it.
fn up_to(graph: &Graph, x: usize) -> ModuleSet
    requires { x < 64 }
    ensures { (i : ℕ) → member result i ≡ toward (edge graph.now) x i }
{
    graph.predecessors(x).with(x)
}

// A module with all to which it has an edge.
fn on_from(graph: &Graph, x: usize) -> ModuleSet
    requires { x < 64 }
    ensures { (j : ℕ) → member result j ≡ onward (edge graph.now) x j }
{
    graph.successors(x).with(x)
}
