//! What a world is dumped as, and what one object looks like.
#![tactic(auto)]

mod comparing;
mod definitions;
mod dumping;
mod fault;
mod lines;
mod looking;
mod objects;
mod outline;
mod seen;
mod skips;

pub use comparing::{CompareFault, compare};
pub use dumping::dump;
pub use fault::RowsDumpFault;
pub use looking::look;
pub use seen::Look;
