//! Connections, a source of them, and the routes that they ask for.
#![tactic(auto)]

mod arrivals;
mod cause;
mod route;

pub use arrivals::{Arrivals, Closing, Connection};
pub use cause::{Cause, Loss};
pub use route::Route;
