// A representation by two sequences.
#![tactic(auto)]

mod order;
mod pair;
mod representing;

pub use pair::SequencePair;
