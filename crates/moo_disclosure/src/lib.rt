//! What a refusal may tell of the world besides its reason and what the call was given: names that the programmer may list, and petitions
//! that the programmer may see. Whoever writes the text of a refusal is given this, and no rows.
#![tactic(auto, unfolding(moo_world::specs::Rows::world_shown, moo_world::specs::Objects::same_object))]

mod clash;
mod disclosure;
mod meant;
mod petition;

pub use disclosure::{Disclosure, disclosure_of};
pub use petition::calls_seen;
