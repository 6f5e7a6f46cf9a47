//! A host whose disks take so many calls, and whose ports so many connections.

ghost use Rattle.std.specs.Prelude.{◌≡◌};
ghost use Rattle.sqlite_disk.specs.Fuse.{inner_of, calls_left, IsFresh};

use crate::connections::HaltingConnections;
use moo_files::WorldFiles;
use moo_http::Ports;
use moo_run::{Advice, BatchFiles};
use sqlite::{Files, Start};
use sqlite_disk::{Disk, Fuse};
use sqlite_std_file::OpenError;
use std::fs::Metadata;
use std::io::Result as IoResult;

/// What a run is granted before it comes to a stop.
#[derive(Clone, Copy, Drop)]
pub struct Halt {
    /// How many calls its log takes.
    pub log_calls: u64,
    /// How many calls its database file takes.
    pub db_calls: u64,
    /// How many bytes its output takes.
    pub bytes: usize,
    /// How many connections each of its ports hands out.
    pub connections: u32,
}

/// The two files of a world, of which each takes so many calls from now on, and refuses each further one.
pub fn halting_files<D: Disk>(files: Files<D>, halt: Halt) -> Files<Fuse<D>>
    // The log is the one given; no call on it failed yet, and it takes so many calls.
    ensures log { (inner_of result.log ≡ files.log) × IsFresh result.log × (calls_left result.log ≡ halt.log_calls) }
    // The same of the database file, with its number of calls.
    ensures db { (inner_of result.db ≡ files.db) × IsFresh result.db × (calls_left result.db ≡ halt.db_calls) }
{
    Files {
        log: Fuse::new(files.log, halt.log_calls),
        db: Fuse::new(files.db, halt.db_calls),
    }
}

/// A host. Of a world each file takes so many calls, and a port hands out so many connections: each further one fails.
#[derive(Drop)]
pub struct HaltingHost<H> {
    inner: H,
    halt: Halt,
}

impl<H> HaltingHost<H> {
    /// A host that comes to a stop once what is granted is used up.
    pub fn new(inner: H, halt: Halt) -> HaltingHost<H>
        ensures { result ≡ record { inner = inner; halt = halt } }
    {
        HaltingHost { inner, halt }
    }
}

impl<T: Start, H: WorldFiles<T>> WorldFiles<T> for HaltingHost<H> {
    type Disk = Fuse<H::Disk>;

    ghost may_open = { λ host path. H.may_open host.inner path };

    ghost refuses = { λ host path error. H.refuses host.inner path error };

    ghost denies = { λ host path. H.denies host.inner path };

    fn metadata(&self, path: &str) -> IoResult<Metadata> {
        self.inner.metadata(path)
    }

    fn seed(&self) -> IoResult<u64> {
        self.inner.seed()
    }

    fn open_database(&self, path: &str, start: T) -> Result<Files<Fuse<H::Disk>>, OpenError> {
        match self.inner.open_database(path, start) {
            Ok(files) => Ok(halting_files(files, self.halt)),
            Err(error) => Err(error),
        }
    }
}

impl<H: BatchFiles> BatchFiles for HaltingHost<H> {
    type Text = H::Text;

    ghost text = { λ host path. H.text host.inner path };

    ghost may_read = { λ host path. H.may_read host.inner path };

    ghost lacks = { λ host path. H.lacks host.inner path };

    fn open(&self, path: &str) -> IoResult<H::Text> {
        self.inner.open(path)
    }
}

impl<H: Advice> Advice for HaltingHost<H> {
    fn explains(&self, path: &str) -> bool {
        self.inner.explains(path)
    }

    fn notes_pages(&self, path: &str) {
        self.inner.notes_pages(path);
    }
}

impl<H: Ports> Ports for HaltingHost<H> {
    ghost use Rattle.moo_run_laws.specs.Halting.{source_of};

    type Source = HaltingConnections<H::Source>;

    ghost listens = { λ old port source new. H.listens old.inner port (source_of source) new.inner };

    ghost closes = { λ old source new. H.closes old.inner source.inner new.inner };

    fn listen(&mut self, port: u16) -> Option<HaltingConnections<H::Source>> {
        match self.inner.listen(port) {
            Some(source) => Some(HaltingConnections::new(source, self.halt.connections)),
            None => None,
        }
    }

    fn close(&mut self, source: HaltingConnections<H::Source>)
        ensures { H.closes self.old.inner source.inner self.new.inner }
    {
        self.inner.close(source.into_inner());
    }
}
