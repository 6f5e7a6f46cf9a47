//! Verb directories: names, arguments and rights of verbs, and the verbs of an object.
#![tactic(auto)]

mod cells;
mod directory;
mod fault;
mod find;
pub mod laws;
mod matching;
mod prep;
mod reading;
mod surface;

pub use cells::{read_object_spec_cell, read_prep_cell};
pub use directory::{add, delete, list, set_args, set_info};
pub use fault::VerbFault;
pub use find::{find_verb, found_verb, verb};
pub use matching::{matches, one_matches};
pub use prep::{print_object_spec, print_prep};
pub use reading::{bits_letters, check_names, read_args, read_prep};
pub use surface::read_bits;
