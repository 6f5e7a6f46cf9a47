//! The calls on objects and what is built into them, and the step that takes one call of any kind.
#![tactic(auto, unfolding(moo_world::specs::Rows::world_shown, moo_world::specs::Objects::same_object))]

mod changing;
mod creating;
mod fields;
mod moving;
mod on_properties;
mod on_verbs;
mod parents;
mod reading;
mod recycling;
mod setting;
mod stepping;
mod values;

pub use changing::set_accept;
pub use stepping::{step, step_named};
