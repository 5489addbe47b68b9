// The packing sequence that fits two closure graphs.
ghost use Rattle.std.specs.Prelude.{◌≡◌, take};
ghost use Rattle.closure_graphs.specs.Shown.{Shown};
ghost use Rattle.closure_graphs.specs.Sound.{table_drawn};
ghost use Rattle.plans.specs.Sequences.{fitting};
ghost use Rattle.plans.specs.Tables.{FeasibleTable};

use table_tests::TwoGraphs;

// Each module at the place that leaves room after it for the modules to which it has an edge: any two modules
// have one, so all others stand before it.
pub(crate) fn fitting_sequence(m: usize, graphs: &TwoGraphs) -> [usize; 64]
    requires shown { Shown (table_drawn graphs.now) graphs.now }
    requires feasible { FeasibleTable m (table_drawn graphs.now) }
    ensures { take m result ≡ fitting m (table_drawn graphs.now) }
{
    // Fixed room, since a change may not use the heap.
    let mut sequence = [0; 64];
    // Each module is written at a place of its own, so to iterate over the places is no plainer.
    for i in 0..m {
        let after = graphs.right.successors(i).len() + graphs.above.successors(i).len();
        sequence[m - 1 - after] = i;
    }
    sequence
}
