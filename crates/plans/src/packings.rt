// The theorems about kinds of length, least packings and longest paths.
ghost use Rattle.plans.specs.AxisTheorems.{PacksLeast, PathsCovered, PacksLongest};
ghost use Rattle.plans.specs.CarriedPackings.{CarriedPackings, CountedIsPlain};
ghost use Rattle.plans.specs.Kinds.{Lawful, plain_kind, counted_kind};
ghost use Rattle.plans.specs.LaterOfTwo.{LaterIsJoin};
ghost use Rattle.plans.specs.PackingAnswers.{PackAnswers, PinnedAnswers, RotatedAnswers, PathAnswers};
ghost use Rattle.plans.specs.PackingTheorems.{PacksPlans, PackIsLeast, PinnedIsLeast, RotatedIsLeast, PacksByLongestPaths, InsideByEnds, OneLeast};

// Plain and counted lengths have the laws of a kind of length.
pub fn lawful_kinds()
    ensures plain { Lawful plain_kind }
    ensures counted { Lawful counted_kind }
{}

// The later of two lengths is their least upper bound and one of the two, for every kind.
pub fn later_of_two<L>()
    ensures { LaterIsJoin L }
{}

// Along every axis whose relation is closed and without a cycle, packing gives the least near edges that keep
// the relations, and there is no placement exactly where a module is pushed past its fixed edge. No path exceeds
// a near edge, and with no fixed edge one is as long.
pub fn packing_along_an_axis<L>()
    ensures least { PacksLeast L }
    ensures covered { PathsCovered L }
    ensures longest { PacksLongest L }
{}

// Packing a feasible floorplan gives the least placement that keeps its relations: no two modules overlap, and
// each near and far edge, width, height and area is at most any other placement's. With a module pinned it does
// so too, or else there is no placement; with one rotated once more it does. No sum goes beyond the limit. Without
// a pin, near edges are longest paths where any two lengths compare. A placement is within the limit exactly where
// every module ends within it, and there is but one least placement.
pub fn packing_a_floorplan<L>()
    ensures plans { PacksPlans L }
    ensures pack { PackIsLeast L }
    ensures pinned { PinnedIsLeast L }
    ensures rotated { RotatedIsLeast L }
    ensures longest { PacksByLongestPaths L }
    ensures inside { InsideByEnds L }
    ensures one { OneLeast L }
{}

// A map between two kinds of length that keeps zero, sums, the later of two and extents carries packings along.
pub fn carried_packings<L, M>()
    ensures { CarriedPackings L M }
{}

// The lengths of a counted packing are those of the plain packing.
pub fn counted_is_plain()
    ensures { CountedIsPlain }
{}

// A packing call that answers a chip shows, with its list, the least placement, and without a pin longest paths
// where any two lengths compare; with a module pinned, "no place" is answered exactly where no other refusal applies
// and there is no placement.
pub fn packing_answers<L>()
    ensures pack { PackAnswers L }
    ensures pinned { PinnedAnswers L }
    ensures rotated { RotatedAnswers L }
    ensures longest { PathAnswers L }
{}
