// The packer: the least placement of a floorplan, over any representation and in any kind of length.
#![tactic(auto)]

mod blank;
mod chip;
mod free;
mod job;
mod making;
mod pin;
mod pinned;
mod placing;
mod refusals;

pub use blank::unplaced;
pub use job::Job;
pub use pin::Pin;
pub use plans::{Chip, PackRefusal, PinnedRefusal, Placed, RotationRefusal, Sides};
