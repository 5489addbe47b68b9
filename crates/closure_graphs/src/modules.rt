// The test that every change of two modules begins with.
ghost use Rattle.std.specs.Prelude.{◌≡◌};
ghost use Rattle.plans.specs.Changes.{two_refusal, unless};

use plans::ChangeRefusal;

/// That a and b are two different ones of m modules, or the first refusal of them.
pub fn two_modules(m: usize, a: usize, b: usize) -> Result<(), ChangeRefusal>
    ensures { result ≡ unless (two_refusal m a b) tt }
{
    if a >= m || b >= m {
        return Err(ChangeRefusal::NoModule);
    }
    if a == b {
        return Err(ChangeRefusal::SameModule);
    }
    Ok(())
}
