//! How a run of the program fails, and the lines that it writes beside replies and dumps.
#![tactic(auto)]

mod failure;
mod output;

pub use failure::Failure;
pub use output::{checked_line, explain_lost, loaded_line, put_failure, put_line, report};
