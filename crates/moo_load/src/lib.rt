//! A world from the text that it was dumped as.
#![tactic(auto, using(crate::proofs::Failing::from_err))]

mod differing;
mod fault;
mod heading;
mod input;
pub mod laws;
mod line;
mod loading;
mod object;
mod petition;
mod place;
mod property;
mod reading;
mod reason;
mod slot;
mod taking;
mod value;
mod verb;

pub use fault::LoadFault;
pub use input::{InputFault, read_text};
pub use loading::read_dump;
pub use reason::DumpReason;
