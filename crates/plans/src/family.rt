// Families of kinds of length, in which the packings of one run may be mixed.
ghost use Rattle.plans.specs.Kinds.{Kind};

use std::marker::Brand;

/// A family of kinds of length: which there are, the lengths of each, and their operations. A law about runs of calls
/// speaks of packings in the kinds of one family.
pub trait Family {
    ghost index: { Type 0 };

    ghost length_of: { index → Type 0 };

    ghost kind_of: { (kind : index) → Kind (length_of kind) };
}

/// The family of no kinds, for a call that names none: a law of runs in it says nothing of packings. The proof of a call
/// that passes `Brand` may pick other ghost members; where it picks none, they are these.
impl Family for Brand {
    ghost index = { ⊥ };

    ghost length_of = { λ kind. Unit {0} };

    ghost kind_of = { λ kind. absurd kind };
}
