// The kinds of length that sides, edges and chips are measured in.
#![tactic(auto)]

mod counted;
mod families;
mod laws;
mod length;
mod plain;
#[cfg(test)]
mod tests;

pub use counted::Counted;
pub use families::{OneKind, TwoKinds};
pub use laws::{counted_is_lawful, counted_without_borders, plain_is_lawful};
pub use length::Length;
pub use plain::Plain;
pub use plans::Sides;
