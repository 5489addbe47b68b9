// The two graphs of a table, each of the edges in one direction.
ghost use Rattle.std.specs.Prelude.{◌≡◌, ℕ, ◌≤◌, slice_index};
ghost use Rattle.table_tests.specs.Codes.{table_given};
ghost use Rattle.table_tests.specs.Tested.{Shows};

use crate::table::Table;
use graphs::Graph;
use module_set::ModuleSet;
use plans::Direction;

/// The horizontal and the vertical graph of a table.
#[derive(Clone, Copy)]
pub struct TwoGraphs {
    pub right: Graph,
    pub above: Graph,
}

impl TwoGraphs {
    // The graphs of a table. They lack an edge where its code is of no direction.
    pub(crate) fn of(table: Table<'_>) -> TwoGraphs
        requires few { table.modules ≤ 64 }
        ensures right { Shows (table_given table.entry) 1 result.right }
        ensures above { Shows (table_given table.entry) 2 result.above }
    {
        let mut right = Graph::empty();
        let mut above = Graph::empty();
        // by the row's number, since chunks of the codes would ask for a test that there are modules
        for i in 0..table.modules {
            let row = padded_row(table, i);
            right.set_successors(i, ModuleSet::places_of(Direction::Right.into(), &row));
            above.set_successors(i, ModuleSet::places_of(Direction::Above.into(), &row));
        }
        TwoGraphs { right, above }
    }
}

// The codes of row i, with no edge to the numbers that are no module.
fn padded_row(table: Table<'_>, i: usize) -> [u8; 64]
    requires few { table.modules ≤ 64 }
    ensures { (j : ℕ) → slice_index result j ≡ table_given table.entry i j }
{
    let row = table.row(i);
    let mut padded = [0; 64];
    padded[..row.len()].copy_from_slice(row);
    padded
}
