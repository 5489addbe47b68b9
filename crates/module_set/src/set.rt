// A set of modules 0 to 63, a bit of one word for each.
mod places;

ghost use Rattle.std.specs.Prelude.{◌≡◌, ℕ, true, false, not, ◌&&◌, ◌||◌, if◌then◌else◌, ◌==◌, nat_lt};
ghost use Rattle.module_set.specs.Members.{member, no_member, in_set, least_member, member_count, is_this};
ghost use Rattle.plans.specs.Changes.{exchange};

/// The modules whose bit is set. A number over 63 is never a member.
#[derive(Clone, Copy)]
pub struct ModuleSet {
    bits: u64,
}

impl ModuleSet {
    /// The set of no modules.
    pub fn empty() -> ModuleSet
        ensures { (k : ℕ) → member result k ≡ false }
    {
        ModuleSet { bits: 0 }
    }

    /// The set of module i alone, empty where i is over 63.
    pub fn single(i: usize) -> ModuleSet
        ensures { (k : ℕ) → member result k ≡ (nat_lt k 64 && k == i) }
    {
        if i < 64 {
            ModuleSet { bits: 1 << i }
        } else {
            ModuleSet::empty()
        }
    }

    /// Whether i is a member.
    pub fn contains(self, i: usize) -> bool
        ensures { result ≡ member self i }
    {
        i < 64 && self.bits >> i & 1 == 1
    }

    /// The members of either set.
    pub fn union(self, other: ModuleSet) -> ModuleSet
        ensures { (k : ℕ) → member result k ≡ (member self k || member other k) }
    {
        ModuleSet {
            bits: self.bits | other.bits,
        }
    }

    /// The members of both sets.
    pub fn intersection(self, other: ModuleSet) -> ModuleSet
        ensures { (k : ℕ) → member result k ≡ (member self k && member other k) }
    {
        ModuleSet {
            bits: self.bits & other.bits,
        }
    }

    /// The members that the other set lacks.
    pub fn minus(self, other: ModuleSet) -> ModuleSet
        ensures { (k : ℕ) → member result k ≡ (member self k && not (member other k)) }
    {
        ModuleSet {
            bits: self.bits ^ (self.bits & other.bits),
        }
    }

    /// The set with i as a member; where i is over 63, the set as it is.
    pub fn with(self, i: usize) -> ModuleSet
        ensures { (k : ℕ) → member result k ≡ (member self k || (nat_lt k 64 && k == i)) }
    {
        self.union(ModuleSet::single(i))
    }

    /// The set without i.
    pub fn without(self, i: usize) -> ModuleSet
        ensures { (k : ℕ) → member result k ≡ (member self k && not (nat_lt k 64 && k == i)) }
    {
        self.minus(ModuleSet::single(i))
    }

    /// The set with i in it where it was out, and out where it was in; where i is over 63, the set as it is.
    pub fn toggled(self, i: usize) -> ModuleSet
        ensures { (k : ℕ) → member result k ≡ (if nat_lt i 64 && k == i then not (member self k) else member self k) }
    {
        if self.contains(i) {
            self.without(i)
        } else {
            self.with(i)
        }
    }

    /// The set with a and b in each other's place, as it is where either is over 63.
    pub fn exchanged(self, a: usize, b: usize) -> ModuleSet
        ensures { (k : ℕ) → member result k ≡ member self (if nat_lt a 64 && nat_lt b 64 then exchange a b k else k) }
    {
        if a < 64 && b < 64 && self.contains(a) != self.contains(b) {
            self.toggled(a).toggled(b)
        } else {
            self
        }
    }

    /// Whether there is no member.
    pub fn is_empty(self) -> bool
        ensures { result ≡ no_member self }
    {
        self.first().is_none()
    }

    /// Whether each member is one of the other set.
    pub fn is_subset(self, other: ModuleSet) -> bool
        ensures { result ≡ in_set self other }
    {
        self.minus(other).is_empty()
    }

    /// The least member.
    pub fn first(self) -> Option<usize>
        ensures { result ≡ least_member self }
    {
        let k = self.bits.trailing_zeros();
        if k < 64 { Some(k as usize) } else { None }
    }

    /// Takes the least member out and answers it, so that calls in a row give the members in turn.
    #[tactic(auto, using(crate::proofs::Membership::without_number))]
    pub fn pop_first(&mut self) -> Option<usize>
        ensures least { result ≡ least_member self.old }
        ensures rest { (k : ℕ) → member self.new k ≡ (member self.old k && not (is_this result k)) }
    {
        let least = self.first();
        if let Some(i) = least {
            *self = self.without(i);
        }
        least
    }

    /// How many members there are.
    pub fn len(self) -> usize
        ensures { result ≡ member_count self }
    {
        self.bits.count_ones() as usize
    }
}
