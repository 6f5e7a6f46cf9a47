//! What is told of reading.

ghost use Rattle.std.specs.Prelude.{◌≤◌, ◌<◌, ◌+◌, ◌*◌};

use std::fmt::{self, Display, Formatter};

/// The bytes of a megabyte.
const MEGABYTE: u64 = 1_000_000;

/// Which file is read.
#[derive(Clone, Copy, Drop)]
pub(crate) enum Subject {
    /// The database file.
    Database,
    /// Its log.
    Log,
}

impl Display for Subject {
    fn fmt<W: fmt::Write>(&self, f: &mut Formatter<W>) -> fmt::Result {
        match self {
            Subject::Database => write!(f, "reading"),
            Subject::Log => write!(f, "reading the log"),
        }
    }
}

/// A line on standard error that tells of reading: which file, how many bytes were read, and how many the file has, if that is known.
#[derive(Clone, Copy, Drop)]
pub(crate) struct Line {
    pub(crate) subject: Subject,
    pub(crate) read: u64,
    pub(crate) length: Option<u64>,
}

/// Bytes as megabytes of 1,000,000 bytes, rounded up.
fn megabytes(bytes: u64) -> u64
    // So many megabytes are no less than the bytes.
    ensures enough { bytes ≤ result * 1_000_000 }
    // One megabyte less would be too few.
    ensures least { result * 1_000_000 < bytes + 1_000_000 }
{
    bytes.div_ceil(MEGABYTE)
}

impl Display for Line {
    fn fmt<W: fmt::Write>(&self, f: &mut Formatter<W>) -> fmt::Result {
        write!(
            f,
            "moo: {}: {} MB so far",
            self.subject,
            megabytes(self.read)
        )?;
        match self.length {
            Some(bytes) => write!(f, ", from a file of {} MB", megabytes(bytes)),
            None => Ok(()),
        }
    }
}
