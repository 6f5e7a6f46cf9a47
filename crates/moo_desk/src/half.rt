//! A socket as a reader and as a writer.

ghost use Rattle.std.specs.{Prelude.{◌≡◌, ⊤, Some, IfSome}, Net.Tcp.{stream_raw_fd}};

use crate::gate::{Inward, Outward};
use moo_http_request::Incoming;
use std::alloc::Global;
use std::io::{Read, Result, Write};
use std::net::{OpenStream, Shutdown, TcpStream};
use std::os::fd::{AsRawFd, RawFd};
use std::rc::Rc;

/// The reader or the writer of a connection. Both are its one socket, which is closed with the last of them.
#[derive(Drop)]
pub struct Half {
    socket: Rc<TcpStream>,
}

impl Half {
    /// Makes the reader and the writer of a socket. None if memory runs out; the socket is closed then.
    pub(crate) fn both(alloc: Global, socket: TcpStream) -> Option<(Half, Half)>
        ensures { IfSome result (λ both. (both.0.socket.value ≡ socket) × (both.1.socket.value ≡ socket)) }
    {
        let socket = Rc::new(alloc, socket).ok()?;
        let writer = Half {
            socket: socket.clone().ok()?,
        };
        Some((Half { socket }, writer))
    }
}

impl Read for Half {
    fn read(&mut self, buf: &mut [u8]) -> Result<usize> {
        let mut socket = self.socket.as_ref();
        socket.read(buf)
    }
}

// A socket tells nothing of when it fails.
impl Incoming for Half {
    ghost fails = { λ _ _. ⊤ };

    fn receive(&mut self, buf: &mut [u8]) -> Result<usize> {
        self.read(buf)
    }
}

// It is known by the number of its socket. A socket tells nothing of what it was asked.
impl Inward for Half {
    ghost peer = { λ it. stream_raw_fd it.socket.value };

    ghost reads = { λ _ _ _. ⊤ };

    fn take_in(&mut self, buf: &mut [u8]) -> Result<usize> {
        let mut socket = self.socket.as_ref();
        socket.read(buf)
    }
}

impl Write for Half {
    fn write(&mut self, buf: &[u8]) -> Result<usize> {
        let mut socket = self.socket.as_ref();
        socket.write(buf)
    }

    fn flush(&mut self) -> Result<()> {
        Ok(())
    }
}

impl Outward for Half {
    ghost peer = { λ it. stream_raw_fd it.socket.value };

    fn put_out(&mut self, buf: &[u8]) -> Result<usize> {
        let mut socket = self.socket.as_ref();
        socket.write(buf)
    }
}

impl OpenStream for Half {
    fn peek(&self, buf: &mut [u8]) -> Result<usize> {
        self.socket.peek(buf)
    }

    fn shutdown(&self, how: Shutdown) -> Result<()> {
        self.socket.shutdown(how)
    }
}

impl AsRawFd for Half {
    ghost raw_fd = { λ it. Some (stream_raw_fd it.socket.value) };

    fn as_raw_fd(&self) -> RawFd {
        self.socket.as_raw_fd()
    }
}
