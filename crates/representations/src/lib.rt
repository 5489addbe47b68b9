// Representations: what stands for one feasible floorplan, whatever it keeps.
#![tactic(auto)]

mod graphs_representation;
mod representation;
mod transposed;

pub use representation::Representation;
pub use transposed::Transposed;
