//! What a call is given, who may do what, and why a call fails.
#![tactic(auto, unfolding(moo_world::specs::Rows::world_shown, moo_world::specs::Objects::same_object))]

mod accept_lists;
mod accepting;
mod args;
mod changing;
mod fault;
mod infos;
pub mod rights;
mod verb_args;

pub use accept_lists::object_and_accept;
pub use accepting::accepts;
pub use args::{
    no_values, object_and_text, object_and_value, object_text_and_value, one_object,
    parent_and_owner, two_objects,
};
pub use changing::change_row;
pub use fault::Fault;
pub use infos::{Info, NewProperty, NewPropertyInfo, new_property, new_property_info};
pub use moo_world::Reason;
pub use verb_args::{
    ArgTexts, NewVerb, NewVerbArgs, NewVerbInfo, VerbInfo, new_verb, new_verb_args, new_verb_info,
    object_and_desc,
};
