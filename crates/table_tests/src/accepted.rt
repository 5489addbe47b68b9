// The pass over a load that accepts it or not, and does not ask why not.
ghost use Rattle.std.specs.Prelude.{◌≡◌, ℕ, ◌≤◌, slice_index};
ghost use Rattle.table_tests.specs.Tested.{AcceptsExactly};

use crate::build::TwoGraphs;
use crate::table::Table;

// The graphs of a load that is accepted, none of a load that is refused.
pub(crate) fn accepted_graphs(codes: &[u8], sequence: &[usize]) -> Option<TwoGraphs>
    ensures { AcceptsExactly codes.now sequence.now result }
{
    if sequence.len() > 64 {
        return None;
    }
    let table = Table::new(sequence.len(), codes)?;
    if greatest(codes) > 2 {
        return None;
    }
    let graphs = TwoGraphs::of(table);
    if graphs.closed_along(sequence) {
        Some(graphs)
    } else {
        None
    }
}

// The greatest of some codes, 0 where there are none.
fn greatest(codes: &[u8]) -> u8
    ensures bound { (k : ℕ) → slice_index codes.now k ≤ result }
    ensures reached { (k : ℕ) × (slice_index codes.now k ≡ result) }
{
    let mut greatest = 0;
    for &code in codes {
        greatest = code.max(greatest);
    }
    greatest
}
