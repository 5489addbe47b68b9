// Plans: a floorplan over any representation, with changes on trial.
#![tactic(auto)]

mod asking;
mod current;
mod decision;
mod law;
mod noted;
mod packings;
mod plan;
mod plan_call;
mod trials;

pub use decision::{Decision, Undecided};
pub use law::plan_law;
pub use plan::Plan;
pub use plan_call::{PlanAnswer, PlanCall};
