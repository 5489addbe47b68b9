// Sample runs of a plan, what the law of plans says of them, and a representation of nothing but the acts.
#![tactic(auto)]

mod acts;
#[cfg(test)]
mod acts_tests;
mod asked;
mod ending;
mod new_plan;
mod sample;
#[cfg(test)]
mod tests;
mod trial;
mod wanted;

pub use acts::Acts;
pub use asked::Asked;
pub use new_plan::{TwoCalls, two_calls};
pub use sample::{Sample, sample_run};
pub use trial::{Blocked, Tried};
pub use wanted::Wanted;
