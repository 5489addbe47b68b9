// Reading two sheets into a representation: parsing them, and loading what they say.
#![tactic(auto)]

mod refused;
mod whole;

pub use whole::read;
