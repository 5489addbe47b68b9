// Points in the plane: corners of modules and chips, and where a module is pinned.
ghost use Rattle.std.specs.Prelude.{◌≡◌, ◌||◌, nat_lt};
ghost use Rattle.plans.specs.Kinds.{pin_limit};
ghost use Rattle.packing.specs.Corners.{first_corner, later_corner, corner_at_most};

use lengths::Length;
use plans::Placed;

const FARTHEST: u32 = 3_600_000;

// A corner by its edges, across and upwards.
#[derive(Clone, Copy)]
pub(crate) struct Corner<L> {
    pub across: L,
    pub up: L,
}

impl<L: Length> Corner<L> {
    // Where both axes begin.
    pub(crate) fn origin() -> Corner<L>
        ensures { result ≡ first_corner L.Length.kind }
    {
        Corner {
            across: L::ZERO,
            up: L::ZERO,
        }
    }

    // The far corner of a placed module.
    pub(crate) fn far_of(placed: &Placed<L>) -> Corner<L>
        ensures { result ≡ record { across = placed.now.right; up = placed.now.top } }
    {
        Corner {
            across: placed.right,
            up: placed.top,
        }
    }

    // The later of two corners along each axis.
    pub(crate) fn join(self, other: Corner<L>) -> Corner<L>
        ensures { result ≡ later_corner L.Length.kind self other }
    {
        Corner {
            across: self.across.join(other.across),
            up: self.up.join(other.up),
        }
    }

    // Whether this is at most the other, along both axes; two corners need not compare, so it is no order to derive.
    pub(crate) fn at_most(self, other: Corner<L>) -> bool
        ensures { result ≡ corner_at_most L.Length.kind self other }
    {
        self.across.at_most(other.across) && self.up.at_most(other.up)
    }
}

// A module that is to begin at a given point.
#[derive(Clone, Copy)]
pub struct Pin<L> {
    pub module: usize,
    pub across: L,
    pub up: L,
}

impl<L: Length> Pin<L> {
    // The point.
    pub(crate) fn corner(self) -> Corner<L>
        ensures { result ≡ record { across = self.across; up = self.up } }
    {
        Corner {
            across: self.across,
            up: self.up,
        }
    }

    // Whether it lies too far out.
    pub(crate) fn is_far(self) -> bool
        ensures { result ≡ (nat_lt pin_limit (L.Length.kind.reach self.across) || nat_lt pin_limit (L.Length.kind.reach self.up)) }
    {
        FARTHEST < self.across.extent() || FARTHEST < self.up.extent()
    }
}
