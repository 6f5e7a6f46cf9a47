//! The laws of the program: what a run leaves of its file, and what the next run finds.
//!
//! No program calls them. A run here is a call of `run_words` of `moo_run`, or of `run_to_end`, which the program calls.
#![tactic(auto)]

mod again;
mod connections;
mod desk;
mod halted;
mod host;
mod in_turn;
mod law;
mod ledger;
mod output;
mod rights;
mod streams;

pub use again::{run_and_run_again, stop_and_run_again};
pub use connections::HaltingConnections;
pub use desk::exchanges_pass_the_desk;
pub use halted::run_halted;
pub use host::{Halt, HaltingHost, halting_files};
pub use in_turn::runs_in_turn;
pub use law::{ends_are_found, runs_lead_on, services_end_where_connections_led};
pub use ledger::desks_keep_a_ledger;
pub use output::HaltingOutput;
pub use rights::led_batches_keep_rights;
pub use streams::{HaltingStreams, halting};
