//! The program over the system: its command line, its standard streams, its files and its ports.
#![tactic(auto)]

mod front;
mod host;
mod standard;

pub use host::System;
pub use standard::{run_command, run_given};
