// The tests of a load: each refusal in its turn, with the graphs of a table that passes.
#![tactic(auto)]

mod accepted;
mod build;
mod closure;
mod codes;
mod order;
mod rows;
mod table;
mod tested;
mod walk;

pub use build::TwoGraphs;
pub use codes::check_codes;
pub use table::Table;
pub use tested::tested_graphs;
