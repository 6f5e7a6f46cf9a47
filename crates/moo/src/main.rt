//! The program `moo`: an object database server with the behaviour of LambdaMOO 1.8.
#![tactic(auto)]

use moo_run_system::run_command;
use std::process::ExitCode;

/// Runs the words of the command line on the system, and ends with their status.
fn main(rt: HostRuntime) -> ExitCode {
    ExitCode::from(run_command(&rt))
}
