// Sets of modules, each promised by its members; no other crate touches bits.
#![tactic(auto)]

mod members;
mod set;

pub use members::Members;
pub use set::ModuleSet;
