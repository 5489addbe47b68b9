// The trait of all kinds of length.
ghost use Rattle.std.specs.Prelude.{◌≡◌};
ghost use Rattle.plans.specs.Kinds.{Kind, Lawful, possible_side};
ghost use Rattle.lengths.specs.Sums.{SumWithin};

const LONGEST_SIDE: u32 = 100_000;

// What sides, edges and chips are measured in: a zero, sums, the later of two, an order and extents.
// The laws are those of all kinds of length, for sums whose extent stays within the limit.
pub trait Length: Copy {
    ghost kind: { Kind Self };

    ghost ZERO: { Self };

    // The length of nothing.
    const ZERO: Self;

    // The sum, where the extents together stay within the limit; each kind says what is beyond.
    fn plus(self, other: Self) -> Self
        ensures { SumWithin kind self other result };

    // The later of two lengths.
    fn join(self, other: Self) -> Self
        ensures { result ≡ kind.later self other }
    {
        if self.at_most(other) { other } else { self }
    }

    // Whether this is at most the other. It is not provided: that would ask of every kind an order of Rust's own.
    fn at_most(self, other: Self) -> bool
        ensures { result ≡ kind.at_most self other };

    // The extent, a whole number.
    fn extent(self) -> u32
        ensures { result ≡ kind.reach self };

    // Whether a module may have this side.
    fn is_side(self) -> bool
        ensures { result ≡ possible_side kind self }
    {
        (1..=LONGEST_SIDE).contains(&self.extent())
    }

    ghost zero: { ZERO ≡ kind.origin };

    ghost lawful: { Lawful kind };
}
