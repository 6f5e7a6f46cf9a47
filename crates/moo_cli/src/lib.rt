//! The words of the command line: what the program is asked to do, and the help that it gives.
#![tactic(auto)]

mod commands;
mod help;
mod task;

pub use task::{Action, Batches, Options, Service, Task, Usage, read_words};
