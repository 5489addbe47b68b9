// Making a counted length, and what it tells.
ghost use Rattle.std.specs.Prelude.{◌≡◌};
ghost use Rattle.plans.specs.Kinds.{after_count};
ghost use Rattle.lengths.specs.CountedLengths.{count_of, count_made};

use crate::counted::Counted;
use plans::LengthRefusal;

const LONGEST: u32 = 10_000_000;

impl Counted {
    // Refuses more borders than length, and a length that is too long.
    pub fn new(length: u32, borders: u32) -> Result<Counted, LengthRefusal>
        ensures { count_made result ≡ after_count length borders }
    {
        if length < borders || LONGEST < length {
            return Err(LengthRefusal::WrongCount);
        }
        Ok(Counted { length, borders })
    }

    pub fn length(self) -> u32
        ensures { result ≡ (count_of self).long }
    {
        self.length
    }

    pub fn borders(self) -> u32
        ensures { result ≡ (count_of self).borders }
    {
        self.borders
    }
}
