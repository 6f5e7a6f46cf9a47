//! A source that hands out so many connections, and no more.

ghost use Rattle.std.specs.Prelude.{◌≡◌};
ghost use Rattle.moo_run_laws.specs.Halting.{HandsOut};

use moo_arrivals::{Arrivals, Closing, Connection, Loss, Route};
use moo_http_request::Routes;

/// A source that hands out so many connections, and fails from then on.
#[derive(Drop)]
pub struct HaltingConnections<A> {
    inner: A,
    connections_left: u32,
}

impl<A> HaltingConnections<A> {
    /// A source that hands out this many of the connections of another source, and has handed out none yet.
    pub(crate) fn new(inner: A, connections: u32) -> HaltingConnections<A>
        ensures { result ≡ record { inner = inner; connections_left = connections } }
    {
        HaltingConnections {
            inner,
            connections_left: connections,
        }
    }

    /// The source whose connections it hands out.
    pub(crate) fn into_inner(self) -> A
        ensures { result ≡ self.inner }
    {
        self.inner
    }
}

impl<A: Arrivals> Arrivals for HaltingConnections<A> {
    type Reader = A::Reader;

    type Writer = A::Writer;

    ghost hands_out = { HandsOut A.hands_out };

    ghost takes_back = { λ old connection new. A.takes_back old.inner connection new.inner };

    ghost loses = { λ old loss new. A.loses old.inner loss new.inner };

    fn accept(&mut self, routes: &Routes, left: u32) -> Option<Connection<A::Reader, A::Writer>> {
        if self.connections_left == 0 {
            return None;
        }
        self.connections_left -= 1;
        self.inner.accept(routes, left)
    }

    fn close(
        &mut self,
        connection: Connection<A::Reader, A::Writer>,
        closing: Closing,
        route: Route,
    )
        ensures { A.takes_back self.old.inner connection self.new.inner }
    {
        self.inner.close(connection, closing, route);
    }

    fn settle(&mut self, is_last: bool) -> Option<Loss> {
        self.inner.settle(is_last)
    }
}
