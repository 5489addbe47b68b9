// A sequence of modules with the place of each.
ghost use Rattle.std.specs.Prelude.{◌≡◌, ℕ, ◌<◌, ◌≤◌, cond, length, nat_lt, slice_index};
ghost use Rattle.graphs.specs.Edges.{edge};
ghost use Rattle.sequence_pairs.specs.Keeping.{AtPlaces, Distinct, before_by};

use graphs::Graph;
use module_set::ModuleSet;

// Up to 64 modules, in the first places of a list, and the place of each of them. Both lists have room for 64, since
// a change may not use the heap.
#[derive(Clone, Copy)]
pub(crate) struct Order {
    pub(crate) count: usize,
    pub(crate) modules: [usize; 64],
    pub(crate) places: [usize; 64],
    ghost few: { count ≤ 64 },
    ghost room: { length modules ≡ 64 },
    ghost wide: { length places ≡ 64 },
    ghost kept: { AtPlaces count modules places },
}

impl Order {
    // The order of no modules.
    pub(crate) fn empty() -> Order
        ensures { result.count ≡ 0 }
    {
        Order {
            count: 0,
            modules: [0; 64],
            places: [0; 64],
        }
    }

    // The modules in this order, of which no two are the same.
    pub(crate) fn of_modules(count: usize, modules: [usize; 64]) -> Order
        requires few { count ≤ 64 }
        requires distinct { Distinct count modules }
        ensures count { result.count ≡ count }
        ensures modules { result.modules ≡ modules }
    {
        Order {
            count,
            modules,
            places: inverse(count, &modules),
        }
    }

    // The modules at these places, of which no two are the same.
    pub(crate) fn at_places(count: usize, places: [usize; 64]) -> Order
        requires few { count ≤ 64 }
        requires distinct { Distinct count places }
        ensures count { result.count ≡ count }
        ensures places { result.places ≡ places }
    {
        Order {
            count,
            modules: inverse(count, &places),
            places,
        }
    }

    // The module at a place, none outside the sequence.
    pub(crate) fn module_at(&self, place: usize) -> Option<usize>
        ensures { result ≡ cond (nat_lt place self.now.count) (Some (slice_index self.now.modules place)) None }
    {
        self.modules[..self.count].get(place).copied()
    }

    // Whether i stands before j.
    pub(crate) fn precedes(&self, i: usize, j: usize) -> bool
        requires first { i < self.now.count }
        requires second { j < self.now.count }
        ensures { result ≡ nat_lt (slice_index self.now.places i) (slice_index self.now.places j) }
    {
        self.places[i] < self.places[j]
    }

    // The graph with an edge from each module to each that stands after it.
    pub(crate) fn followers(&self) -> Graph
        ensures { (i j : ℕ) → edge result i j ≡ before_by self.now.count self.now.places i j }
    {
        let mut graph = Graph::empty();
        let mut met = ModuleSet::empty();
        for place in (0..self.count).rev() {
            let module = self.modules[place];
            graph.set_successors(module, met);
            met = met.with(module);
        }
        graph
    }
}

// Where each of the first entries of a list stands, of which no two are the same.
fn inverse(count: usize, entries: &[usize; 64]) -> [usize; 64]
    requires few { count ≤ 64 }
    requires distinct { Distinct count entries.now }
    ensures { AtPlaces count result entries.now }
{
    let mut stands = [0; 64];
    for (k, entry) in entries[..count].iter().enumerate() {
        stands[*entry] = k;
    }
    stands
}
