// What a representation and a plan refuse: each case with what it tells.
ghost use Rattle.std.specs.Prelude.{◌≡◌, ℕ};
ghost use Rattle.plans.specs.Numbers.{number_of_load, number_of_change, number_of_plan, number_of_trial};
ghost use Rattle.plans.specs.declared.refusals.PlanRefusal.TheVariants.{Refused};

// What is refused, by the number that the listing prints.
pub trait Refusal {
    ghost number_of: { Self → ℕ };

    fn number(&self) -> u16
        ensures { result ≡ number_of self.now };
}

// A load that a representation refuses. Pairs are the first in row order.
#[derive(Clone, Copy)]
pub enum LoadRefusal {
    // over 64 modules, or not one code for each ordered pair of them
    WrongShape,
    // a code above 2
    WrongCode(usize, usize),
    // a module related to itself
    SelfRelated(usize, usize),
    // two modules, the lower number first, without an edge or with two
    NotOneEdge(usize, usize),
    // an edge missing that two others close
    NotClosed(usize, usize),
    // a place of the sequence with no module or a repeated one
    WrongPlace(usize),
    // an edge against the sequence
    Backwards(usize, usize),
}

// A change that a representation refuses.
#[derive(Clone, Copy)]
pub enum ChangeRefusal {
    // a number that is no module's
    NoModule,
    // the same module twice
    SameModule,
    // no edge from the first to the second
    NoEdge,
    // an edge that others close
    NoReductionEdge,
}

// A load or a change that a plan refuses.
#[derive(Clone, Copy)]
pub enum PlanRefusal<E> {
    // a trial is open
    TrialOpen,
    // the representation refuses
    Refused(E),
}

pub type PlanLoadRefusal = PlanRefusal<LoadRefusal>;

pub type PlanChangeRefusal = PlanRefusal<ChangeRefusal>;

// A keep or an undo that a plan refuses.
#[derive(Clone, Copy)]
pub enum TrialRefusal {
    // no trial is open
    NoTrial,
}

impl Refusal for LoadRefusal {
    ghost number_of = { number_of_load };

    fn number(&self) -> u16 {
        match self {
            LoadRefusal::WrongShape => 10,
            LoadRefusal::WrongCode(_, _) => 11,
            LoadRefusal::SelfRelated(_, _) => 12,
            LoadRefusal::NotOneEdge(_, _) => 13,
            LoadRefusal::NotClosed(_, _) => 14,
            LoadRefusal::WrongPlace(_) => 15,
            LoadRefusal::Backwards(_, _) => 16,
        }
    }
}

impl Refusal for ChangeRefusal {
    ghost number_of = { number_of_change };

    fn number(&self) -> u16 {
        match self {
            ChangeRefusal::NoModule => 21,
            ChangeRefusal::SameModule => 22,
            ChangeRefusal::NoEdge => 23,
            ChangeRefusal::NoReductionEdge => 24,
        }
    }
}

impl<E: Refusal> Refusal for PlanRefusal<E> {
    ghost number_of = { number_of_plan E.Refusal.number_of };

    fn number(&self) -> u16 {
        match self {
            PlanRefusal::TrialOpen => 20,
            PlanRefusal::Refused(refusal) => refusal.number(),
        }
    }
}

impl Refusal for TrialRefusal {
    ghost number_of = { number_of_trial };

    fn number(&self) -> u16 {
        match self {
            TrialRefusal::NoTrial => 30,
        }
    }
}

// What a representation refuses, as a plan over it does.
impl<E> From<E> for PlanRefusal<E> {
    ghost from_gives = { λ refusal r. r ≡ Refused refusal };

    fn from(refusal: E) -> PlanRefusal<E> {
        PlanRefusal::Refused(refusal)
    }
}
