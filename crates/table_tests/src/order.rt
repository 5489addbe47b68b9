// The tests of a packing sequence: its places, and the edges along it.
ghost use Rattle.std.specs.Prelude.{◌≡◌, ◌≤◌, length};

use crate::rows::first_in_rows;
use crate::table::Table;
use module_set::ModuleSet;
use plans::LoadRefusal;

// A table of at most 64 modules, with a sequence of as many.
#[derive(Clone, Copy)]
pub(crate) struct Sequenced<'a> {
    pub(crate) table: Table<'a>,
    pub(crate) sequence: &'a [usize],
    ghost few: { table.modules ≤ 64 },
    ghost long: { length sequence.now ≡ table.modules },
}

impl<'a> Sequenced<'a> {
    ghost use Rattle.std.specs.Prelude.{ℕ, ◌<◌, false, slice_index};
    ghost use Rattle.std.specs.Option.{option_map};
    ghost use Rattle.plans.specs.Changes.{unless};
    ghost use Rattle.plans.specs.Search.{first_below, first_pair, place_of};
    ghost use Rattle.plans.specs.Tests.{place_wrong, backwards, sequence_refusal, telling_pair};
    ghost use Rattle.plans.specs.declared.refusals.LoadRefusal.TheVariants.{WrongPlace, Backwards};
    ghost use Rattle.table_tests.specs.Codes.{table_given};
    ghost use Rattle.table_tests.specs.Places.{against};

    // The first refusal of the sequence.
    pub(crate) fn check(self) -> Result<(), LoadRefusal>
        ensures { result ≡ unless (sequence_refusal (table_given self.entry.table) self.entry.sequence.now) tt }
    {
        self.check_places()?;
        self.check_order()
    }

    // Each place has a module that does not stand earlier too, as the modules that were met tell.
    fn check_places(self) -> Result<(), LoadRefusal>
        ensures { result ≡ unless (option_map WrongPlace (first_below (length self.entry.sequence.now) (place_wrong self.entry.sequence.now))) tt }
    {
        let mut met = ModuleSet::empty();
        for (place, &module) in self.sequence.iter().enumerate() {
            if module >= self.sequence.len() || met.contains(module) {
                return Err(LoadRefusal::WrongPlace(place));
            }
            met = met.with(module);
        }
        Ok(())
    }

    // No edge points backwards.
    fn check_order(self) -> Result<(), LoadRefusal>
        requires once { (k : ℕ) → k < length self.sequence.now → place_wrong self.sequence.now k ≡ false }
        ensures { result ≡ unless (telling_pair Backwards (first_pair (length self.entry.sequence.now) (backwards (table_given self.entry.table) self.entry.sequence.now))) tt }
    {
        let places = self.places();
        first_in_rows(self.table.modules, |i| self.backward_from(&places, i)).map_or(
            Ok(()),
            |(i, j)| Err(LoadRefusal::Backwards(i, j)),
        )
    }

    // The first module that stands before i and to which i has an edge.
    fn backward_from(self, places: &[usize; 64], i: usize) -> Option<usize>
        requires inside { i < self.table.modules }
        ensures { result ≡ first_below self.entry.table.modules (against (table_given self.entry.table) places.now i) }
    {
        let own = places[i];
        self.table
            .row(i)
            .iter()
            .zip(places)
            .position(|(&code, &place)| code > 0 && place < own)
    }

    // The place of each module.
    fn places(self) -> [usize; 64]
        requires once { (k : ℕ) → k < length self.sequence.now → place_wrong self.sequence.now k ≡ false }
        ensures { (i : ℕ) → i < length self.entry.sequence.now → slice_index result i ≡ place_of self.entry.sequence.now i }
    {
        // Fixed room, since a load may not use the heap.
        let mut places = [0; 64];
        for (place, &module) in self.sequence.iter().enumerate() {
            places[module] = place;
        }
        places
    }
}
