// The places at which a code stands in a row of 64.
ghost use Rattle.std.specs.Prelude.{◌≡◌, ℕ, ◌&&◌, ◌==◌, nat_lt, slice_index};
ghost use Rattle.module_set.specs.Members.{member};

use crate::set::ModuleSet;
use std::simd::prelude::*;

impl ModuleSet {
    /// The places of a row at which this code stands.
    pub fn places_of(code: u8, row: &[u8; 64]) -> ModuleSet
        ensures { (k : ℕ) → member result k ≡ (nat_lt k 64 && slice_index row.now k == code) }
    {
        // all places are compared at once, since a step for each would be most of a load
        ModuleSet {
            bits: u8x64::from_array(*row)
                .simd_eq(u8x64::splat(code))
                .to_bitmask(),
        }
    }
}
