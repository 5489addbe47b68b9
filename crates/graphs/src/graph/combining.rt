// Graphs made of two, row by row.
ghost use Rattle.std.specs.Prelude.{◌≡◌, ℕ, not, ◌&&◌};
ghost use Rattle.graphs.specs.Edges.{edge, RowsMade};

use super::Graph;
use module_set::ModuleSet;

impl Graph {
    /// The edges that both graphs have.
    pub fn intersection(&self, other: &Graph) -> Graph
        ensures { (i j : ℕ) → edge result i j ≡ (edge self.now i j && edge other.now i j) }
    {
        self.combined(other, |own, theirs| own.intersection(theirs))
    }

    /// The edges that the other graph lacks.
    pub fn minus(&self, other: &Graph) -> Graph
        ensures { (i j : ℕ) → edge result i j ≡ (edge self.now i j && not (edge other.now i j)) }
    {
        self.combined(other, |own, theirs| own.minus(theirs))
    }

    // The graph whose rows are made of those of the two.
    fn combined<F: Fn(ModuleSet, ModuleSet) -> ModuleSet>(&self, other: &Graph, make: F) -> Graph
        requires { F.IsAlwaysCallable make }
        ensures { RowsMade (F.post make) self.now other.now result }
    {
        let mut rows = self.rows;
        for (i, row) in rows.iter_mut().enumerate() {
            *row = make(*row, other.rows[i]);
        }
        Graph { rows }
    }
}
