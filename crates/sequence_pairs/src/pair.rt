// Two sequences of the same modules.
ghost use Rattle.std.specs.Prelude.{◌≡◌, ℕ, ◌<◌, slice_index};
ghost use Rattle.closure_graphs.specs.Meaning.{graphs_mean};
ghost use Rattle.plans.specs.SequencePairs.{other_before};
ghost use Rattle.plans.specs.Sequences.{count_before};
ghost use Rattle.plans.specs.Tables.{no_modules, table_in};

use crate::order::Order;
use closure_graphs::ClosureGraphs;

/// The packing sequence and the other one, in which a module precedes those right of it and those
/// below it, of up to 64 modules.
#[derive(Drop)]
pub struct SequencePair {
    pub(crate) packing: Order,
    pub(crate) other: Order,
    ghost same: { other.count ≡ packing.count },
}

impl SequencePair {
    ghost use Rattle.sequence_pairs.specs.Meaning.{meant};

    /// The pair of no modules.
    pub fn new() -> SequencePair
        ensures { meant result ≡ no_modules }
    {
        SequencePair {
            packing: Order::empty(),
            other: Order::empty(),
        }
    }

    // The pair of closure graphs.
    pub(crate) fn of_graphs(taken: &ClosureGraphs) -> SequencePair
        ensures { meant result ≡ graphs_mean taken.now }
    {
        SequencePair {
            packing: Order::of_modules(taken.size, taken.sequence),
            other: Order::at_places(taken.size, other_places(taken)),
        }
    }
}

// The place of each module in the other sequence: it counts those left of the module and those above it.
fn other_places(taken: &ClosureGraphs) -> [usize; 64]
    ensures { (j : ℕ) → j < taken.now.size → slice_index result j ≡ count_before taken.now.size (other_before (table_in (graphs_mean taken.now))) j }
{
    let mut places = taken.graphs.right.predecessor_counts();
    for (j, place) in places.iter_mut().enumerate() {
        *place += taken.graphs.above.successors(j).len();
    }
    places
}
