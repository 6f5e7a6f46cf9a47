//! The tree of parents and the tree of locations.
#![tactic(auto)]

mod ancestors;
mod lists;
mod locations;
mod numbers;
mod surface;
mod under;

pub use ancestors::{chain, chain_keys, is_under};
pub use lists::{children, contents, players};
pub use locations::inside;
pub use numbers::{is_nothing, nothing, valid};
pub use surface::{common, subtree};
pub use under::owners_under;
