//! The one place with the system's sockets.

ghost use Rattle.std.specs.{Prelude.{◌≡◌, ⊤, [], true, IfOk}, Net.Tcp.{listener_raw_fd, stream_raw_fd}};
ghost use Rattle.moo_desk.specs.{Deeds.{HoldsNone}, Exchange.{GetsBack, Hands, TakesBack, TellsNext}};

use crate::desk::Desk;
use crate::gathered::Gathered;
use crate::half::Half;
use crate::outgoing::Outgoing;
use crate::sockets::{SocketGate, Sockets};
use mio::unix::SourceFd;
use mio::{Events, Interest, Poll, Token};
use moo_arrivals::{Arrivals, Closing, Connection, Loss, Route};
use moo_http_request::Routes;
use std::alloc::Global;
use std::io::Result;
use std::net::{Ipv4Addr, TcpListener, TcpStream};
use std::os::fd::{AsRawFd, RawFd};
use std::time::Duration;

/// The sockets of the system, with a listener at a port of 127.0.0.1. Nothing is known of what they are asked.
#[derive(Drop)]
pub struct SystemSockets {
    poll: Poll,
    listener: TcpListener,
}

impl SystemSockets {
    /// Binds a port of 127.0.0.1, and of no other address. An error if it can't be bound.
    fn bind(rt: &HostRuntime, port: u16) -> Result<SystemSockets> {
        let poll = Poll::new(rt)?;
        let listener = TcpListener::bind(rt, (Ipv4Addr::LOCALHOST, port))?;
        listener.set_nonblocking(true)?;
        Ok(SystemSockets { poll, listener })
    }
}

impl Sockets for SystemSockets {
    type Socket = TcpStream;

    type Reader = Half;

    type Writer = Half;

    ghost listener = { λ it. listener_raw_fd it.listener };

    ghost number = { λ socket. stream_raw_fd socket };

    ghost does = { λ _ _ _. ⊤ };

    fn listener_descriptor(&self) -> RawFd {
        self.listener.as_raw_fd()
    }

    fn reader_descriptor(&self, reader: &Half) -> RawFd {
        reader.as_raw_fd()
    }

    fn writer_descriptor(&self, writer: &Half) -> RawFd {
        writer.as_raw_fd()
    }

    fn accept(&mut self) -> Result<TcpStream> {
        Ok(self.listener.accept()?.0)
    }

    fn unblock(&mut self, socket: &TcpStream) -> bool {
        socket.set_nonblocking(true).is_ok()
    }

    fn split(&mut self, alloc: Global, socket: TcpStream) -> Option<(Half, Half)> {
        Half::both(alloc, socket)
    }

    fn register(&mut self, descriptor: RawFd, mark: usize, interest: Interest) -> Result<()> {
        let registry = self.poll.registry();
        registry.register(&mut SourceFd(&descriptor), Token(mark), interest)
    }

    fn reregister(&mut self, descriptor: RawFd, mark: usize, interest: Interest) -> Result<()> {
        let registry = self.poll.registry();
        registry.reregister(&mut SourceFd(&descriptor), Token(mark), interest)
    }

    fn poll(&mut self, events: &mut Events, most: Duration) {
        let _waited = self.poll.poll(events, Some(most));
    }
}

/// The desk of a port of 127.0.0.1: a desk over sockets.
#[derive(Drop)]
pub struct SocketDesk<'a> {
    desk: Desk<'a, SocketGate<SystemSockets>, HostRuntime>,
}

impl<'a> SocketDesk<'a> {
    /// Listens on a port of 127.0.0.1, and makes the desk of its connections. An error if the port can't be bound or watched, or if memory
    /// runs out.
    pub fn listen(rt: &'a HostRuntime, port: u16) -> Result<SocketDesk<'a>>
        ensures { IfOk result (λ it. HoldsNone it.desk.held × (it.desk.gate.gave ≡ 0)) }
    {
        let gate = SocketGate::new(rt.alloc(), SystemSockets::bind(rt, port)?)?;
        let desk = Desk::new(rt.alloc(), rt, gate)?;
        Ok(SocketDesk { desk })
    }
}

// The desk's promises, of sockets.
impl<'a> Arrivals for SocketDesk<'a> {
    ghost hands_out = { λ old handed new. Hands (old.desk.held, old.desk.gate.gave) handed (new.desk.held, new.desk.gate.gave) };

    ghost takes_back = { λ old given new. TakesBack (old.desk.held, old.desk.gate.gave) given (new.desk.held, new.desk.gate.gave) };

    ghost loses = { λ old told new. TellsNext (old.desk.held, old.desk.gate.gave) told (new.desk.held, new.desk.gate.gave) };

    type Reader = Gathered<Half>;

    type Writer = Outgoing<Half>;

    fn accept(
        &mut self,
        routes: &Routes,
        left: u32,
    ) -> Option<Connection<Gathered<Half>, Outgoing<Half>>>
        ensures hands { Hands (self.old.desk.held, self.old.desk.gate.gave) result (self.new.desk.held, self.new.desk.gate.gave) }
    {
        self.desk.accept(routes, left)
    }

    fn close(
        &mut self,
        connection: Connection<Gathered<Half>, Outgoing<Half>>,
        closing: Closing,
        route: Route,
    )
        ensures back { TakesBack (self.old.desk.held, self.old.desk.gate.gave) connection (self.new.desk.held, self.new.desk.gate.gave) }

        // It is held with this route, to be closed in this way.
        ensures gets { GetsBack (self.old.desk.held, self.old.desk.gate.gave) connection closing route
            (self.new.desk.held, self.new.desk.gate.gave) }
    {
        self.desk.close(connection, closing, route)
    }

    fn settle(&mut self, is_last: bool) -> Option<Loss>
        ensures tells { TellsNext (self.old.desk.held, self.old.desk.gate.gave) result (self.new.desk.held, self.new.desk.gate.gave) }
        ensures last { is_last ≡ true → self.new.desk.held.leaving.items ≡ [] }
    {
        self.desk.settle(is_last)
    }
}
