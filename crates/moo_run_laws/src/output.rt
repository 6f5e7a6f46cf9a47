//! An output that takes so many bytes, and no more.

ghost use Rattle.std.specs.Prelude.{◌≡◌};

use std::io::{Error, ErrorKind, Result, Write};

/// A writer that takes so many bytes, and fails from then on.
pub struct HaltingOutput<W> {
    inner: W,
    bytes_left: usize,
}

impl<W> HaltingOutput<W> {
    /// A writer that takes this many bytes for another writer, and has taken none yet.
    pub fn new(inner: W, bytes: usize) -> HaltingOutput<W>
        ensures { result ≡ record { inner = inner; bytes_left = bytes } }
    {
        HaltingOutput {
            inner,
            bytes_left: bytes,
        }
    }
}

impl<W: Write> Write for HaltingOutput<W> {
    ghost contents = { λ output. W.contents output.inner };

    fn write(&mut self, buf: &[u8]) -> Result<usize> {
        if self.bytes_left == 0 {
            return Err(Error::from(ErrorKind::BrokenPipe));
        }
        let some = buf.len().min(self.bytes_left);
        let taken = self.inner.write(&buf[..some])?;
        self.bytes_left -= taken;
        Ok(taken)
    }

    fn flush(&mut self) -> Result<()> {
        self.inner.flush()
    }
}
