//! Where connections come from.

ghost use Rattle.std.specs.{Prelude.{◌≡◌, ◌<◌, ◌≤◌, ℕ, ℤ, List, length, vec_capacity}, Io.{ReadsAtMost, WritesAtMost}};
ghost use Rattle.std.specs.Io.KnownBytes.{ReadConsumes, WriteAppends};
ghost use Rattle.moo_desk.specs.{Pairs.{CountsTaken, IsOfOnePeer}, Read.{Gave}};

use crate::held::MOST;
use moo_http_request::Incoming;
use std::io::{Result, Write};
use std::net::OpenStream;
use std::time::Duration;

/// The mark by which a wait tells that a connection may have come. No connection has it.
pub const NEWS: usize = 0;

/// What came of taking a connection.
#[derive(Drop)]
pub enum Taken<R, W> {
    /// Its reader and its writer, and whether neither ever waits.
    Came(R, W, bool),
    /// None is there now.
    Nobody,
    /// One may be there, but there is no room for it in the system now.
    NoRoom,
    /// One was there, and is lost.
    Failed,
}

/// The reader of a peer. Whose it is, no read changes.
///
/// A function over `R: Inward` is proved for all readers. So it can say of none that it was read, or what a read gave, unless it read it.
pub trait Inward: Incoming {
    /// The number of its connection.
    ghost peer: { Self → ℤ };

    /// The reader before a read, what the read gave, and the reader after it.
    ghost reads: { Self → Gave → Self → Type 0 };

    /// Reads bytes into the buffer, as `Read::read` does, and answers how many; 0 is the end. An error if the read failed, and of the kind
    /// WouldBlock if no bytes are there now.
    fn take_in(&mut self, buf: &mut [u8]) -> Result<usize>
        ensures bound { ReadsAtMost result buf.new }
        // The bytes are taken from what the reader still had.
        ensures bytes { ReadConsumes (Self.remaining self.old) (Self.remaining self.new) result buf.new }
        ensures peer { peer self.new ≡ peer self.old }
        ensures read { 0 < length buf.new → reads self.old result self.new };
}

/// The writer of a peer. Whose it is, no write changes.
pub trait Outward: Write {
    /// The number of its connection.
    ghost peer: { Self → ℤ };

    /// Writes bytes of the buffer, as `Write::write` does, and answers how many. An error if the write failed, and of the kind WouldBlock
    /// if none are taken now.
    fn put_out(&mut self, buf: &[u8]) -> Result<usize>
        ensures bound { WritesAtMost result buf.now }
        ensures bytes { WriteAppends (Self.contents self.old) (Self.contents self.new) result buf.now }
        ensures peer { peer self.new ≡ peer self.old };
}

/// A gate, through which connections come. None is waited for but by `wait`.
pub trait Gate {
    ghost use Rattle.moo_desk.specs.declared.gate.Taken.{Taken};
    ghost use Rattle.std.specs.declared.time.Duration.{Duration};

    type Reader: Inward + OpenStream + Drop;

    type Writer: Outward + OpenStream + Drop;

    /// How many connections it gave.
    ghost gave: { Self → ℕ };

    /// The gate before it was asked for a connection, what it gave, and the gate after that.
    ghost takes: { Self → Taken Self.Reader Self.Writer → Self → Type 0 };

    /// The gate before a wait of so long at most, the marks that it told, and the gate after it.
    ghost waits: { Self → Duration → List ℕ → Self → Type 0 };

    /// Takes the next connection, if one is there: the reader and the writer of one peer. If it takes none and one is there, the next wait
    /// tells `NEWS`.
    fn take(&mut self) -> Taken<Self::Reader, Self::Writer>
        // The reader and the writer of a connection that came are of one peer.
        ensures pair { IsOfOnePeer Self.Reader.peer Self.Writer.peer result }
        // Each connection that came is counted, once.
        ensures count { CountsTaken (gave self.old) result (gave self.new) }
        ensures taken { takes self.old result self.new };

    /// From now on a wait also ends when bytes may have come to this reader, and tells this mark then; whether it does.
    fn watch(&mut self, reader: &Self::Reader, mark: usize) -> bool
        ensures { gave self.new ≡ gave self.old };

    /// From now on a wait also ends when bytes may have come from the peer of this writer, or when the writer may take more, and tells this
    /// mark then, in place of an earlier one; whether it does.
    fn watch_writer(&mut self, writer: &Self::Writer, mark: usize) -> bool
        ensures { gave self.new ≡ gave self.old };

    /// Waits until something that is watched may have changed, but no longer than this. What changed is told by its mark, and that a
    /// connection may have come by `NEWS`. A mark may be told though nothing changed.
    fn wait(&mut self, most: Duration, told: &mut Vec<usize>)
        // The list has room for the marks of 64 changes, so that no memory is taken.
        requires { MOST ≤ vec_capacity told.old }
        ensures gave { gave self.new ≡ gave self.old }
        // The list has the marks of this wait, and no earlier ones.
        ensures told { waits self.old most told.new.items self.new }
        ensures room { vec_capacity told.old ≤ vec_capacity told.new };
}
