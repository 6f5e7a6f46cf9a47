//! Where connections come from.

use crate::cause::{Cause, Loss};
use crate::route::Route;
use moo_http_request::{Incoming, Routes};
use std::io::Write;

/// A connection: where its request is read, and where its answer is written.
#[derive(Drop)]
pub struct Connection<R, W> {
    pub reader: R,
    pub writer: W,
    /// No read or write of it waits without end for a silent peer.
    pub is_limited: bool,
    /// Why it fails, if its request can't be read to its end.
    pub cause: Cause,
}

/// How a connection is closed.
#[derive(Clone, Copy, Drop)]
pub enum Closing {
    /// At once: it has no answer.
    AtOnce,
    /// Gently if more bytes have come than were read, else at once.
    IfMoreCame,
    /// Gently: a part of its request is unread, and may still come.
    Gently,
}

/// A source of connections. It hands out one after another, and each is given back to it to be closed.
///
/// The ghost members say what the source was and is at each of these steps. So a clause can name the connections that were accepted, each
/// as it was handed out and as it was given back, and those whose answers were lost after that.
pub trait Arrivals {
    ghost use Rattle.std.specs.Prelude.{⊤, Option};
    ghost use Rattle.moo_arrivals.specs.declared.arrivals.Connection.{Connection};
    ghost use Rattle.moo_arrivals.specs.declared.cause.Loss.{Loss};

    type Reader: Incoming + Drop;

    type Writer: Write + Drop;

    /// The source before it hands out a connection, or none at a fault; and after that.
    ghost hands_out: { Self → Option (Connection Self.Reader Self.Writer) → Self → Type 0 } = { λ _ _ _. ⊤ };

    /// The source before a connection is given back to it, and after that.
    ghost takes_back: { Self → Connection Self.Reader Self.Writer → Self → Type 0 } = { λ _ _ _. ⊤ };

    /// The source before it tells of a connection whose answer was lost, or of none, and after that.
    ghost loses: { Self → Option Loss → Self → Type 0 } = { λ _ _ _. ⊤ };

    /// Waits for the next connection and hands it out. `left` connections are still to be handed out, this one among them. None if one
    /// came and can't be taken. By the routes the source may tell whether a request is whole.
    fn accept(
        &mut self,
        routes: &Routes,
        left: u32,
    ) -> Option<Connection<Self::Reader, Self::Writer>>
        ensures { hands_out self.old result self.new };

    /// Takes back a connection that asked for this route, to be closed in this way once its answer is sent.
    fn close(
        &mut self,
        connection: Connection<Self::Reader, Self::Writer>,
        closing: Closing,
        route: Route,
    )
        ensures { takes_back self.old connection self.new };

    /// Tells of a connection that was taken back, and whose answer was lost after that. None if no answer was; each is told of once. If
    /// this `is_last`, it waits first until each answer is sent or lost.
    fn settle(&mut self, is_last: bool) -> Option<Loss>
        ensures { loses self.old result self.new };
}
