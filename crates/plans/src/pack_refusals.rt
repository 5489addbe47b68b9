// What a packing and the making of a length refuse: each case with what it tells.
ghost use Rattle.std.specs.Prelude.{◌≡◌};
ghost use Rattle.plans.specs.Numbers.{number_of_pack, number_of_pinned, number_of_rotation, number_of_length};
ghost use Rattle.plans.specs.declared.pack_refusals.PinnedRefusal.TheVariants as pinned;
ghost use Rattle.plans.specs.declared.pack_refusals.RotationRefusal.TheVariants as rotation;

use crate::refusals::Refusal;

// A packing that is refused.
#[derive(Clone, Copy)]
pub enum PackRefusal {
    // not one entry of sides for each module
    WrongSides,
    // fewer results than modules
    ShortResults,
    // the first module with a side that is not possible
    WrongSide(usize),
}

// A packing with one module pinned that is refused.
#[derive(Clone, Copy)]
pub enum PinnedRefusal {
    // what any packing refuses
    Packing(PackRefusal),
    // the pinned number is no module's
    NoModule,
    // the pin lies too far out
    FarPin,
    // no placement has the module there
    NoPlace,
}

// A packing with one module rotated once more that is refused.
#[derive(Clone, Copy)]
pub enum RotationRefusal {
    // what any packing refuses
    Packing(PackRefusal),
    // the number is no module's
    NoModule,
}

// A counted length that can't be made.
#[derive(Clone, Copy)]
pub enum LengthRefusal {
    // more borders than length, or too long
    WrongCount,
}

impl Refusal for PackRefusal {
    ghost number_of = { number_of_pack };

    fn number(&self) -> u16 {
        match self {
            PackRefusal::WrongSides => 40,
            PackRefusal::ShortResults => 41,
            PackRefusal::WrongSide(_) => 42,
        }
    }
}

impl Refusal for PinnedRefusal {
    ghost number_of = { number_of_pinned };

    fn number(&self) -> u16 {
        match self {
            PinnedRefusal::Packing(refusal) => refusal.number(),
            PinnedRefusal::NoModule => 43,
            PinnedRefusal::FarPin => 44,
            PinnedRefusal::NoPlace => 45,
        }
    }
}

impl Refusal for RotationRefusal {
    ghost number_of = { number_of_rotation };

    fn number(&self) -> u16 {
        match self {
            RotationRefusal::Packing(refusal) => refusal.number(),
            RotationRefusal::NoModule => 43,
        }
    }
}

impl Refusal for LengthRefusal {
    ghost number_of = { number_of_length };

    fn number(&self) -> u16 {
        match self {
            LengthRefusal::WrongCount => 50,
        }
    }
}

// What any packing refuses, a packing with a module pinned refuses too.
impl From<PackRefusal> for PinnedRefusal {
    ghost from_gives = { λ cause r. r ≡ pinned.Packing cause };

    fn from(cause: PackRefusal) -> PinnedRefusal {
        PinnedRefusal::Packing(cause)
    }
}

// And so does one with a module rotated once more.
impl From<PackRefusal> for RotationRefusal {
    ghost from_gives = { λ cause r. r ≡ rotation.Packing cause };

    fn from(cause: PackRefusal) -> RotationRefusal {
        RotationRefusal::Packing(cause)
    }
}
