//! Batches: the verdict on a batch, the step that takes any call of one, and the calls of petitions.
#![tactic(auto, unfolding(moo_world::specs::Rows::world_shown, moo_world::specs::Objects::same_object))]

mod args;
mod asking;
mod charging;
mod declining;
mod facts;
mod granting;
mod held;
mod judging;
mod listing;
mod looking;
mod stepping;
mod witness;

pub use held::held_call;
pub use judging::{Verdict, judge};
pub use stepping::step;
pub use witness::{Facts, Refusal, Witness};
