//! Readers that requests come from.

ghost use Rattle.std.specs.{Prelude.{OnErr}, Io.{ReadsAtMost}, Io.KnownBytes.{ReadConsumes}};

use std::io::{Read, Result};

/// A reader that tells when a read of it failed.
///
/// A function over `R: Incoming` is proved for all readers. So it can say of none that it failed, unless a read of it did.
pub trait Incoming: Read {
    /// The reader before a read that failed, and after it.
    ghost fails: { Self → Self → Type 0 };

    /// Reads bytes into the buffer, as `Read::read` does, and answers how many; 0 is the end. An error if the read failed.
    fn receive(&mut self, buf: &mut [u8]) -> Result<usize>
        ensures bound { ReadsAtMost result buf.new }
        // The bytes are taken from what the reader still had.
        ensures bytes { ReadConsumes (Self.remaining self.old) (Self.remaining self.new) result buf.new }
        // An error is the reader's own: this read of it failed.
        ensures failed { OnErr result (fails self.old self.new) };
}

/// Bytes in memory never fail.
impl Incoming for &[u8] {
    ghost fails = { λ _ _. ⊥ };

    fn receive(&mut self, buf: &mut [u8]) -> Result<usize> {
        self.read(buf)
    }
}
