//! Disks that tell of long reading.
#![tactic(auto)]

mod changes;
mod line;
mod reading;
mod teller;
mod telling;

pub use changes::DiskChanges;
pub use telling::{Telling, telling_files};
