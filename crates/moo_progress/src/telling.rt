//! A disk that tells of long reading.

ghost use Rattle.std.specs.Prelude.{◌≡◌};
ghost use Rattle.moo_progress.specs.Telling.{inner_of};

use crate::changes::DiskChanges;
use crate::line::Subject;
use crate::teller::Teller;
use sqlite_disk::{Disk, Files, Tally};
use std::io::{self, Eprint};
use std::time::Clock;

/// A disk that passes each call on, and tells of long reading on standard error.
///
/// Nothing is told in the first five seconds of a run of reads, and then at most a line each five seconds. A run ends with a change of any
/// file that shares its `DiskChanges`, and with a pause of more than a minute. The clock is read at the first of each 64 reads. Errors of
/// the clock and of standard error are ignored.
#[derive(Drop)]
pub struct Telling<'a, D: Disk, C: Clock + Eprint> {
    inner: D,
    teller: Teller<'a, C>,
}

/// The two files of a world, as disks that tell of long reading on this console.
pub fn telling_files<'a, D: Disk, C: Clock + Eprint>(
    files: Files<D>,
    console: &'a C,
    changes: &'a DiskChanges,
) -> Files<Telling<'a, D, C>>
    // The log is passed on as it is.
    ensures log { inner_of result.log ≡ files.log }
    // So is the database file.
    ensures db { inner_of result.db ≡ files.db }
{
    Files {
        log: Telling {
            inner: files.log,
            teller: Teller::new(console, changes, Subject::Log),
        },
        db: Telling {
            inner: files.db,
            teller: Teller::new(console, changes, Subject::Database),
        },
    }
}

impl<'a, D: Disk, C: Clock + Eprint> Disk for Telling<'a, D, C> {
    ghost seen = { λ t. D.Disk.seen t.inner };

    ghost may_leave = { λ t. D.Disk.may_leave t.inner };

    ghost is_usable = { λ t. D.Disk.is_usable t.inner };

    ghost faults = { λ t. D.Disk.faults t.inner };

    ghost tally_of = { λ t. D.Disk.tally_of t.inner };

    ghost is_rotten = { λ t. D.Disk.is_rotten t.inner };

    ghost key_of = { λ t. D.Disk.key_of t.inner };

    ghost is_frozen = { λ t. D.Disk.is_frozen t.inner };

    ghost is_clean = { λ t. D.Disk.is_clean t.inner };

    ghost is_fair = { λ t. D.Disk.is_fair t.inner };

    ghost fair_if_clean = { λ t. D.Disk.fair_if_clean t.inner };

    ghost seen_may_stay = { λ t. D.Disk.seen_may_stay t.inner };

    ghost is_mixing = { λ t. D.Disk.is_mixing t.inner };

    fn mixes(&self) -> bool {
        self.inner.mixes()
    }

    fn key(&self) -> u64 {
        self.inner.key()
    }

    fn tally(&self) -> Tally {
        self.inner.tally()
    }

    fn may_be_used(&self) -> bool {
        self.inner.may_be_used()
    }

    fn len(&mut self) -> io::Result<usize> {
        let length = self.inner.len();
        if let Ok(bytes) = &length {
            self.teller.note_length(*bytes);
        }
        length
    }

    fn read_at(&mut self, at: usize, buf: &mut [u8]) -> io::Result<()> {
        self.teller.note_read(buf.len());
        self.inner.read_at(at, buf)
    }

    fn read_checked(&mut self, key: u64, want: u64, at: usize, buf: &mut [u8]) -> io::Result<()> {
        self.teller.note_read(buf.len());
        self.inner.read_checked(key, want, at, buf)
    }

    fn write_at(&mut self, at: usize, bytes: &[u8]) -> io::Result<()> {
        self.teller.note_change();
        self.inner.write_at(at, bytes)
    }

    fn set_len(&mut self, len: usize) -> io::Result<()> {
        self.teller.note_change();
        self.inner.set_len(len)
    }

    fn sync(&mut self) -> io::Result<()> {
        self.inner.sync()
    }
}
