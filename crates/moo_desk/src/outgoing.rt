//! A writer that never waits: what it doesn't take yet is kept.

ghost use Rattle.std.specs.{Prelude.{◌≡◌, ◌≤◌, ◌-◌, Bool, [], length, drop, nat_eq}, Io.KnownBytes.{Keeps, append_known}};

use crate::gate::Outward;
use std::alloc::Global;
use std::io::{ErrorKind, Result, Write};

/// How many bytes are sent at once, so that no long answer holds the others.
const PIECE: usize = 262_144;

/// What came of sending.
#[derive(Clone, Copy, PartialEq, Eq, Drop)]
pub enum Sending {
    /// Some went out.
    Went,
    /// The peer takes nothing now.
    Stuck,
    /// The writer failed.
    Broken,
}

/// A writer, and the text that it is to take: what it took, up to `sent`, and then the rest.
#[derive(Drop)]
pub struct Outgoing<W> {
    pub writer: W,
    pub text: Vec<u8>,
    pub sent: usize,
    ghost inside: { sent ≤ length text.items },
}

impl<W> Outgoing<W> {
    /// A writer with no text to send yet.
    pub fn new(alloc: Global, writer: W) -> Outgoing<W>
        ensures { (result.writer ≡ writer) × (result.text.items ≡ []) × (result.sent ≡ 0) }
    {
        Outgoing {
            writer,
            text: Vec::new(alloc),
            sent: 0,
        }
    }

    /// How many bytes of the text weren't sent yet.
    pub fn unsent(&self) -> usize
        ensures { result ≡ length self.now.text.items - self.now.sent }
    {
        self.text.len() - self.sent
    }
}

impl<W: Outward> Outgoing<W> {
    /// Hands the writer the next bytes of the text, up to 262,144. Went if it took some, Stuck if it takes none now, and Broken if it
    /// failed or takes no more.
    pub fn send(&mut self) -> Sending
        // The text stays: only what is sent of it may grow.
        ensures text { self.new.text ≡ self.old.text }
        // The writer stays that of the same peer.
        ensures peer { W.peer self.new.writer ≡ W.peer self.old.writer }
        // The bytes that the writer has, and then those still unsent, are the same bytes as before.
        ensures invisible { Keeps (append_known (W.contents self.old.writer) (drop self.old.sent self.old.text.items))
            (append_known (W.contents self.new.writer) (drop self.new.sent self.new.text.items)) }
    {
        let end = self.sent + self.unsent().min(PIECE);
        match self.writer.put_out(&self.text[self.sent..end]) {
            Ok(0) => Sending::Broken,
            Ok(count) => {
                self.sent += count;
                Sending::Went
            }
            Err(error) if error.kind() == ErrorKind::WouldBlock => Sending::Stuck,
            Err(_) => Sending::Broken,
        }
    }
}

impl<W: Write> Write for Outgoing<W> {
    ghost contents = { λ it. append_known (W.contents it.writer) (drop it.sent it.text.items) };

    fn write(&mut self, buf: &[u8]) -> Result<usize> {
        self.text.extend_from_slice(buf)?;
        Ok(buf.len())
    }

    fn flush(&mut self) -> Result<()> {
        Ok(())
    }
}
