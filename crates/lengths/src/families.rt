// Families of one kind of length and of two.
ghost use Rattle.lengths.specs.Families.{lengths_of_one, one_kind, OfTwo, lengths_of_two, two_kinds};

use crate::length::Length;
use plans::Family;
use std::marker::PhantomData;

/// The family of one kind of length, of which the one index is `tt`. It only names the kind: no value of it is ever asked
/// for. `one_lawful` of `Families` says that it is lawful.
pub struct OneKind<L> {
    lengths: PhantomData<L>,
}

/// The family of two kinds of length, by the indices `first_kind` and `second_kind`. `two_lawful` of `Families` says that
/// it is lawful.
pub struct TwoKinds<L, M> {
    first: PhantomData<L>,
    second: PhantomData<M>,
}

impl<L: Length> Family for OneKind<L> {
    ghost index = { Unit {0} };

    ghost length_of = { lengths_of_one L };

    ghost kind_of = { one_kind L.Length.kind };
}

impl<L: Length, M: Length> Family for TwoKinds<L, M> {
    ghost index = { OfTwo };

    ghost length_of = { lengths_of_two L M };

    ghost kind_of = { two_kinds L.Length.kind M.Length.kind };
}
