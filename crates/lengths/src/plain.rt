// Plain lengths: whole numbers.
ghost use Rattle.std.specs.Prelude.{◌≡◌, refl};
ghost use Rattle.lengths.specs.PlainLengths.{plain_lengths, plain_capped};
ghost use Rattle.lengths.specs.Sums.{SumWithin};
ghost use Rattle.lengths.specs.OfferedLemmas.{plain_laws};

use crate::length::Length;

// A length that is a whole number.
#[derive(Clone, Copy, PartialEq, Eq, PartialOrd, Ord, Debug)]
pub struct Plain(pub u32);

impl Length for Plain {
    ghost kind = { plain_lengths };

    ghost ZERO = { plain_lengths.origin };

    ghost zero = { refl };

    ghost lawful = { plain_laws };

    const ZERO: Plain = Plain(0);

    // Beyond the limit the sum stops at the greatest number.
    fn plus(self, other: Plain) -> Plain
        ensures sum { SumWithin plain_lengths self other result }
        ensures capped { result ≡ plain_capped self other }
    {
        Plain(self.0.saturating_add(other.0))
    }

    fn at_most(self, other: Plain) -> bool {
        self <= other
    }

    fn extent(self) -> u32 {
        self.0
    }
}
