// The laws of the two kinds of length, each on a function that only carries it.
ghost use Rattle.plans.specs.CarriedPackings.{Carries, PacksCarried};
ghost use Rattle.plans.specs.Kinds.{Lawful};
ghost use Rattle.lengths.specs.CountedLengths.{counted_lengths, without_borders};
ghost use Rattle.lengths.specs.PlainLengths.{plain_lengths};

// Plain lengths have the laws of a kind of length.
pub fn plain_is_lawful()
    ensures { Lawful plain_lengths }
{}

// Counted lengths have the laws of a kind of length.
pub fn counted_is_lawful()
    ensures { Lawful counted_lengths }
{}

// Without their borders, counted lengths have the zero, the sums, the later of two and the extents of
// plain lengths; so their packings are the plain ones.
pub fn counted_without_borders()
    ensures carries { Carries counted_lengths plain_lengths without_borders }
    ensures packs { PacksCarried counted_lengths plain_lengths without_borders }
{}
