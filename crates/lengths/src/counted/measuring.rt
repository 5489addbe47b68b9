// Counted lengths as a kind of length.
ghost use Rattle.std.specs.Prelude.{◌≡◌, refl};
ghost use Rattle.lengths.specs.CountedLengths.{count_of, count_capped, counted_lengths};
ghost use Rattle.lengths.specs.Sums.{SumWithin};
ghost use Rattle.lengths.specs.OfferedLemmas.{counted_laws};

use crate::counted::Counted;
use crate::length::Length;

impl Counted {
    // Length and borders added, each up to the greatest number.
    fn added(self, other: Counted) -> Counted
        ensures { count_of result ≡ count_capped (count_of self) (count_of other) }
    {
        Counted {
            length: self.length.saturating_add(other.length),
            borders: self.borders.saturating_add(other.borders),
        }
    }
}

impl Length for Counted {
    ghost kind = { counted_lengths };

    ghost ZERO = { counted_lengths.origin };

    ghost zero = { refl };

    ghost lawful = { counted_laws };

    const ZERO: Counted = Counted {
        length: 0,
        borders: 0,
    };

    // Beyond the limit length and borders stop at the greatest number.
    fn plus(self, other: Counted) -> Counted
        ensures sum { SumWithin counted_lengths self other result }
        ensures capped { count_of result ≡ count_capped (count_of self) (count_of other) }
    {
        self.added(other)
    }

    fn at_most(self, other: Counted) -> bool {
        self <= other
    }

    fn extent(self) -> u32 {
        self.length()
    }
}
