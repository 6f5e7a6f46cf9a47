//! The calls on verbs.
#![tactic(auto, unfolding(moo_world::specs::Rows::world_shown, moo_world::specs::Objects::same_object))]

mod adding;
mod changing;
mod reading;

pub use adding::add_verb;
pub use changing::{delete_verb, set_verb_args, set_verb_info};
pub use reading::{verb_args, verb_info, verbs};
