//! What a request asks, from the bytes of a connection: its head, read in pieces, its route, and its body only if the head asks for one.
//!
//! The lines of a head say who sent it, which machine it is for, and the length of its body.
#![tactic(auto)]

mod asked;
mod body;
mod each;
mod fault;
mod head;
mod host;
mod incoming;
mod input;
mod laws;
mod lines;
mod numbers;
mod plan;
mod question;
mod refused;
mod request;
mod routes;
mod shape;
mod whole;
mod wrong;

pub use asked::{Asked, Method, Mode, Refusal};
pub use each::{Batches, Each};
pub use fault::ReadFault;
pub use head::MAX_HEAD;
pub use incoming::Incoming;
pub use laws::{received_once, routes_are_known};
pub use question::{Question, Topic};
pub use refused::Refused;
pub use request::{Received, read_request};
pub use routes::{Endpoint, Routes};
pub use whole::{Wanted, bytes_wanted};
pub use wrong::{BodyFault, ShapeFault};
