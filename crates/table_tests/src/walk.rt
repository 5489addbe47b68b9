// The walk along a sequence, from its end, that finds two graphs closed and the sequence along all their edges.
ghost use Rattle.std.specs.Prelude.{◌≡◌, ℕ, ◌≤◌, true, length};
ghost use Rattle.std.specs.Bool.{Decides};
ghost use Rattle.graphs.specs.Edges.{edge};
ghost use Rattle.module_set.specs.Members.{member};
ghost use Rattle.table_tests.specs.Walked.{BothClosedAt, ClosedAt, GoesOn, Walked};

use crate::build::TwoGraphs;
use graphs::Graph;
use module_set::ModuleSet;

impl TwoGraphs {
    // Whether each module of a sequence has edges to exactly those after it, and both graphs are closed.
    pub(crate) fn closed_along(&self, sequence: &[usize]) -> bool
        requires few { length sequence.now ≤ 64 }
        ensures { Decides result (Walked self.now sequence.now) }
    {
        let mut met = ModuleSet::empty();
        for place in (0..sequence.len()).rev() {
            let module = sequence[place];
            // one that is met already would need an edge to itself, and those met have none
            if module >= sequence.len() || !self.goes_on(module, met) {
                return false;
            }
            met = met.with(module);
        }
        true
    }

    // Whether i has edges to exactly those met, and in each graph to all that theirs lead to.
    fn goes_on(&self, i: usize, met: ModuleSet) -> bool
        requires closed { (j : ℕ) → member met j ≡ true → BothClosedAt self.now j }
        ensures { Decides result (GoesOn self.now i (member met)) }
    {
        let to = self.right.successors(i).union(self.above.successors(i));
        if !to.is_subset(met) || !met.is_subset(to) {
            return false;
        }
        is_closed_at(&self.right, i) && is_closed_at(&self.above, i)
    }
}

// Whether i has an edge to all that its successors have edges to, where the graph is closed at each of them.
fn is_closed_at(graph: &Graph, i: usize) -> bool
    requires closed { (j : ℕ) → edge graph.now i j ≡ true → ClosedAt graph.now j }
    ensures { Decides result (ClosedAt graph.now i) }
{
    let successors = graph.successors(i);
    let mut rest = successors;
    while let Some(j) = rest.pop_first() {
        let beyond = graph.successors(j);
        if !beyond.is_subset(successors) {
            return false;
        }
        // the graph is closed at j, so what those beyond lead to is beyond j too
        rest = rest.minus(beyond);
    }
    true
}
