// Graphs on modules 0 to 63, each promised by its edges.
#![tactic(auto)]

mod graph;
mod tally;

pub use graph::Graph;
