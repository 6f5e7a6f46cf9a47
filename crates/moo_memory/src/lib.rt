//! The rows in memory: in ordered maps, with what objects are looked up by; those that a new world begins with; and drafts over
//! rows that stay as they are, with what they change.
#![tactic(auto)]

mod changes;
mod draft;
mod either;
mod flat;
pub mod laws;
mod links;
mod listing;
mod names;
mod opening;
mod overlay;
mod own_links;
mod surface;
mod ticks;

pub use changes::{ChangeList, Changes, apply_changes};
pub use draft::Draft;
pub use flat::Flat;
pub use opening::{opening_world, put_opening};
pub use ticks::ENDLESS;
