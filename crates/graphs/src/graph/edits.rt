// Changing the edges of a graph, row by row.
ghost use Rattle.std.specs.Prelude.{◌≡◌, ℕ, ◌<◌, not, ◌&&◌, ◌||◌, if◌then◌else◌, ◌==◌, nat_lt};
ghost use Rattle.graphs.specs.Edges.{edge, swapped, row_of, RowChanged};
ghost use Rattle.module_set.specs.Members.{member};

use super::Graph;
use module_set::ModuleSet;

impl Graph {
    /// Gives i other successors, and changes nothing where i is over 63.
    pub fn set_successors(&mut self, i: usize, to: ModuleSet)
        ensures { (k j : ℕ) → edge self.new k j ≡ (if nat_lt k 64 && k == i then member to j else edge self.old k j) }
    {
        if i < 64 {
            self.rows[i] = to;
        }
    }

    /// Adds every edge from one of the first set to one of the second.
    pub fn connect(&mut self, from: ModuleSet, to: ModuleSet)
        ensures { (i j : ℕ) → edge self.new i j ≡ (edge self.old i j || (member from i && member to j)) }
    {
        self.change_rows(from, |row| row.union(to));
    }

    /// Takes out every edge from one of the first set to one of the second.
    pub fn disconnect(&mut self, from: ModuleSet, to: ModuleSet)
        ensures { (i j : ℕ) → edge self.new i j ≡ (edge self.old i j && not (member from i && member to j)) }
    {
        self.change_rows(from, |row| row.minus(to));
    }

    // Gives each module of a set other successors, made of those that it had.
    fn change_rows<F: Fn(ModuleSet) -> ModuleSet>(&mut self, of: ModuleSet, change: F)
        requires { F.IsAlwaysCallable change }
        ensures { (i : ℕ) → i < 64 → RowChanged (F.post change) (member of i) (row_of self.old i) (row_of self.new i) }
    {
        for i in of {
            let row = &mut self.rows[i];
            *row = change(*row);
        }
    }

    /// Lets a and b take each other's place, and changes nothing where either is over 63.
    pub fn swap(&mut self, a: usize, b: usize)
        ensures { (i j : ℕ) → edge self.new i j ≡ edge self.old (swapped a b i) (swapped a b j) }
    {
        if a < 64 && b < 64 {
            self.rows.swap(a, b);
            for row in &mut self.rows {
                *row = row.exchanged(a, b);
            }
        }
    }
}
