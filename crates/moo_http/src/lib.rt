//! The service over HTTP: one request a connection, asked of the World and answered.
#![tactic(auto)]

mod consult;
mod fault;
mod laws;
mod listen;
mod log;
mod note;
mod ports;
mod rate;
mod serve;
mod service;
mod why;
mod write;

pub use fault::ServeFault;
pub use laws::{answers_are_defined, connections_lead_on, exchanges_pass_through};
pub use listen::{Served, serve_connection, serve_next, serve_on};
pub use log::Log;
pub use note::{Note, Trouble};
pub use ports::Ports;
pub use serve::{Means, serve_one};
pub use service::{Duty, ServiceFault, Tools, serve_from, serve_port};
