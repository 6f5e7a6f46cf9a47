//! Worlds in files: opened, and made.
#![tactic(auto)]

mod again;
mod blank;
mod closing;
mod connecting;
mod making;
mod opening;
mod pair;
mod paths;
mod remains;
mod start;
mod stop;
mod surface;

pub use again::open_again;
pub use blank::open_or_make;
pub use closing::close_connection;
pub use making::{make_from, make_in};
pub use opening::open_from;
pub use pair::NotOpened;
pub use paths::WorldFiles;
pub use remains::Remains;
pub use start::fresh_files_hold_start;
pub use stop::{disk_leaves_a_database, disk_leaves_what_was_kept, open_after_stop};
pub use surface::{create_at, open_at};
