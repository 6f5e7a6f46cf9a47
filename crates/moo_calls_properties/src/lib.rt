//! The calls on properties that are not built in.
#![tactic(auto, unfolding(moo_world::specs::Rows::world_shown, moo_world::specs::Objects::same_object))]

mod clearing;
mod definitions;
mod deleting;
mod info;
mod reading;
mod setting;
mod slots;

pub use clearing::{clear_property, is_clear_property};
pub use definitions::add_property;
pub use deleting::delete_property;
pub use info::set_property_info;
pub use reading::{get_property, properties, property_info};
pub use setting::set_property;
