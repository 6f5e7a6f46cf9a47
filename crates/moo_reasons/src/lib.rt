//! Why a line of a batch can't be read, why a call is refused, and what is told of each batch that isn't accepted, in words for people.
//!
//! Why a call is refused is the reason that the call itself answers. Its text is made of the batch, the reason and what the refusal
//! discloses: of the rows nothing more is looked at. What a batch is answered is judged elsewhere.
#![tactic(auto, unfolding(moo_world::specs::Rows::world_shown, moo_world::specs::Objects::same_object))]

mod built_ins;
mod faults;
mod forms;
mod given;
mod line;
mod lists;
mod names;
mod nearest;
mod notes;
mod petitions;
mod said;
mod sentence;
mod telling;
mod values;
mod why;

pub use line::Why;
pub use notes::StandardNotes;
pub use why::{Whys, call_why};
