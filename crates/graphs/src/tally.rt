// Counting, for all modules at once, how often each is a member of some sets.
ghost use Rattle.std.specs.Prelude.{◌≡◌, length};

use module_set::ModuleSet;

// How often each module was counted, up to 127 times: a set of modules for each of seven binary digits, the lowest first.
#[derive(Clone, Copy)]
pub(crate) struct Tally {
    digits: [ModuleSet; 7],
    ghost full: { length digits ≡ 7 },
}

impl Tally {
    ghost use Rattle.std.specs.Prelude.{ℕ, ◌+◌, ◌<◌, cond};
    ghost use Rattle.graphs.specs.Tallies.{times_counted};
    ghost use Rattle.module_set.specs.Members.{member};

    // No module counted.
    pub(crate) fn new() -> Tally
        ensures { (k : ℕ) → times_counted result k ≡ 0 }
    {
        Tally {
            digits: [ModuleSet::empty(); 7],
        }
    }

    // Counts each member of a set once more.
    pub(crate) fn add(&mut self, set: ModuleSet)
        requires { (k : ℕ) → times_counted self.now k < 127 }
        ensures { (k : ℕ) → times_counted self.new k ≡ times_counted self.old k + cond (member set k) 1 0 }
    {
        let mut carry = set;
        for digit in &mut self.digits {
            let both = digit.intersection(carry);
            *digit = digit.union(carry).minus(both);
            carry = both;
        }
    }

    // How often module k was counted.
    pub(crate) fn count(&self, k: usize) -> usize
        ensures { result ≡ times_counted self.now k }
    {
        let mut count = 0;
        let mut weight = 1;
        for digit in &self.digits {
            if digit.contains(k) {
                count += weight;
            }
            weight *= 2;
        }
        count
    }
}
