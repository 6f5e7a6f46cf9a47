//! What the program does: the words of the command line, over a world in a file or in memory.
#![tactic(auto)]

mod commands;
mod ends;
mod files;
mod host;
mod loading;
mod over;
mod run;
mod session;
mod texts;

pub use ends::Ends;
pub use files::run_from;
pub use host::{Advice, BatchFiles};
pub use over::{run_in_session, run_over};
pub use run::{run_to_end, run_words};
pub use session::{HasRun, Session, Streams};
