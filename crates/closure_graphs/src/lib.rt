// Two closure graphs with their packing sequence: a feasible floorplan as rows of sets, its loads and its changes.
#![tactic(auto)]

mod closure_graphs;
mod edge;
mod fitting;
mod modules;
mod places;
mod redrawn;

pub use closure_graphs::ClosureGraphs;
pub use modules::two_modules;
