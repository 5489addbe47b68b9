// The theory of floorplans: what every crate above shares and is proved against.
#![tactic(auto)]

mod change;
mod direction;
mod family;
mod graphs;
mod measures;
mod pack_refusals;
mod packings;
mod refusals;
mod theorems;
mod worked;

pub use change::{Change, exchanged};
pub use direction::Direction;
pub use family::Family;
pub use graphs::{changes_of_graphs, one_sequence};
pub use measures::{Chip, Placed, Sides};
pub use pack_refusals::{LengthRefusal, PackRefusal, PinnedRefusal, RotationRefusal};
pub use packings::{
    carried_packings, counted_is_plain, later_of_two, lawful_kinds, packing_a_floorplan,
    packing_along_an_axis, packing_answers,
};
pub use refusals::{
    ChangeRefusal, LoadRefusal, PlanChangeRefusal, PlanLoadRefusal, PlanRefusal, Refusal,
    TrialRefusal,
};
pub use theorems::{first_refusals, load_law, model_law, pair_law, transpose_law};
pub use worked::worked_plans;
