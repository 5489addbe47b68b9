// The listing of a task as bytes.
#![tactic(auto)]

mod bordered;
mod column;
mod fault;
mod laws;
mod lines;
mod pack;
mod packed;
mod script;
mod scripted;
mod whole;

pub use laws::{script_laws, worked_listings};
pub use whole::listing;
