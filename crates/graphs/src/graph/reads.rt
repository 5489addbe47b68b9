// Making a graph and reading its edges.
ghost use Rattle.std.specs.Prelude.{◌≡◌, ℕ, ◌<◌, false, slice_index};
ghost use Rattle.graphs.specs.Edges.{edge, two_steps};
ghost use Rattle.graphs.specs.Tallies.{edges_into};
ghost use Rattle.module_set.specs.Members.{member};

use super::Graph;
use crate::tally::Tally;
use module_set::ModuleSet;

impl Graph {
    /// The graph with no edges.
    pub fn empty() -> Graph
        ensures { (i j : ℕ) → edge result i j ≡ false }
    {
        Graph {
            rows: [ModuleSet::empty(); 64],
        }
    }

    /// Whether there is an edge from i to j.
    pub fn has_edge(&self, i: usize, j: usize) -> bool
        ensures { result ≡ edge self.now i j }
    {
        self.successors(i).contains(j)
    }

    /// The modules to which i has an edge.
    #[tactic(auto, using(crate::proofs::Rows::edge_inside, crate::proofs::Rows::edge_outside))]
    pub fn successors(&self, i: usize) -> ModuleSet
        ensures { (j : ℕ) → member result j ≡ edge self.now i j }
    {
        if i < 64 {
            self.rows[i]
        } else {
            ModuleSet::empty()
        }
    }

    /// The modules that have an edge to j.
    pub fn predecessors(&self, j: usize) -> ModuleSet
        ensures { (i : ℕ) → member result i ≡ edge self.now i j }
    {
        let mut found = ModuleSet::empty();
        for (i, row) in self.rows.iter().enumerate() {
            if row.contains(j) {
                found = found.with(i);
            }
        }
        found
    }

    /// How many modules have an edge to each of 0 to 63.
    pub fn predecessor_counts(&self) -> [usize; 64]
        ensures { (j : ℕ) → j < 64 → slice_index result j ≡ edges_into self.now j }
    {
        let mut tally = Tally::new();
        for row in &self.rows {
            tally.add(*row);
        }
        let mut counts = [0; 64];
        for (j, count) in counts.iter_mut().enumerate() {
            *count = tally.count(j);
        }
        counts
    }

    /// The modules to which a successor of i has an edge.
    pub fn two_steps(&self, i: usize) -> ModuleSet
        ensures { (k : ℕ) → member result k ≡ two_steps self.now i k }
    {
        let mut reached = ModuleSet::empty();
        for j in self.successors(i) {
            reached = reached.union(self.successors(j));
        }
        reached
    }
}
