//! Connections side by side, in one thread: requests are gathered and answers are sent meanwhile, and whoever is slow waits alone.
#![tactic(auto)]

mod desk;
mod first;
mod gate;
mod gathered;
mod half;
mod held;
mod leaving;
mod losses;
mod outgoing;
mod rounds;
mod slot;
mod sockets;
mod system;

pub use desk::Desk;
pub use gate::{Gate, Inward, NEWS, Outward, Taken};
pub use gathered::{Coming, Filled, Gathered};
pub use half::Half;
pub use held::Held;
pub use leaving::{Leaving, Stage};
pub use losses::Losses;
pub use outgoing::{Outgoing, Sending};
pub use slot::Slot;
pub use sockets::{SocketGate, Sockets};
pub use system::{SocketDesk, SystemSockets};
