// The places of the packing sequence.
ghost use Rattle.std.specs.Prelude.{◌≡◌, ℕ, map, length, take};
ghost use Rattle.plans.specs.Changes.{exchange};

use plans::exchanged;

// Lets a and b take each other's place in a sequence.
pub(crate) fn swap_entries(sequence: &mut [usize; 64], a: usize, b: usize)
    ensures exact { sequence.new ≡ map (exchange a b) sequence.old }
    ensures entries { (n : ℕ) → take n sequence.new ≡ map (exchange a b) (take n sequence.old) }
    ensures long { length sequence.new ≡ length sequence.old }
{
    for module in sequence.iter_mut() {
        *module = exchanged(a, b, *module);
    }
}
