// The token that a change on trial hands out, and that a keep or an undo spends.
ghost use Rattle.std.specs.Prelude.{◌≡◌};
ghost use Rattle.plans.specs.declared.refusals.TrialRefusal.TheVariants.{NoTrial};

use plans::TrialRefusal;

/// One open decision: a change that is done hands it out, and a keep or an undo spends it. It can't be let go, copied or
/// made elsewhere. That is the compiler's word and no clause's, since it has a private field and derives neither `Drop`
/// nor `Clone` nor `Copy`. Every contract would still be met with them: `Drop` would let a decision fall unspent, and
/// `Clone` or `Copy` would let a program decide twice by one.
pub struct Decision {
    open: (),
}

/// A keep or an undo that is refused, which hands the decision back. With the decision in it, it can't be let go or
/// copied either.
pub struct Undecided {
    pub refusal: TrialRefusal,
    pub decision: Decision,
}

impl Decision {
    pub(crate) fn new() -> Decision {
        Decision { open: () }
    }

    pub(crate) fn spend(self) {
        let Decision { open: () } = self;
    }

    // Handed back where there is no trial to end.
    pub(crate) fn handed_back(self) -> Undecided
        ensures { result.refusal ≡ NoTrial }
    {
        Undecided {
            refusal: TrialRefusal::NoTrial,
            decision: self,
        }
    }
}
