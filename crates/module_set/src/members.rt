// The members of a set one after another, the least first.
ghost use Rattle.std.specs.Prelude.{◌≡◌};
ghost use Rattle.std.specs.Iterator.{at_most};
ghost use Rattle.module_set.specs.Members.{TakesLeast, member_count};

use crate::set::ModuleSet;

/// The members of a set that are still to come.
#[derive(Clone, Copy)]
pub struct Members {
    rest: ModuleSet,
}

impl Iterator for Members {
    type Item = usize;

    ghost next_gives = { λ s r t. TakesLeast s.rest r t.rest };

    ghost remaining = { λ s. at_most (member_count s.rest) };

    fn next(&mut self) -> Option<usize> {
        self.rest.pop_first()
    }
}

impl IntoIterator for ModuleSet {
    type Item = usize;

    type IntoIter = Members;

    ghost into_iter_gives = { λ s members. members.rest ≡ s };

    fn into_iter(self) -> Members {
        Members { rest: self }
    }
}
