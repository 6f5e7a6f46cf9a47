//! The host of the system: its files and its ports.

ghost use Rattle.std.specs.Prelude.{None, ⊤};

use crate::front::{has_journal, read_front};
use moo_desk::SocketDesk;
use moo_files::{WorldFiles, fresh_files_hold_start};
use moo_http::Ports;
use moo_load_reasons::{WHAT_TO_DO, holds_lambdamoo};
use moo_progress::{DiskChanges, Telling, telling_files};
use moo_run::{Advice, BatchFiles};
use sqlite::{FileFrom, Files, Start};
use sqlite_std_file::OpenError;
use std::fs::{self, File, Metadata, OpenOptions};
use std::hash::{BuildHasher, RandomState};
use std::io::{Error, ErrorKind, Result};
use std::os::unix::fs::OpenOptionsExt;

/// The size of a page at which a batch is fastest, in bytes.
const PAGE: u32 = 1024;

/// The files and the ports of the system. Nothing is known of what the files hold, or of the connections that come.
#[derive(Drop)]
pub struct System<'a> {
    rt: &'a HostRuntime,
    changes: &'a DiskChanges,
}

impl<'a> System<'a> {
    /// The system that this runtime is on. The changes that its files take are counted in `changes`.
    pub fn new(rt: &'a HostRuntime, changes: &'a DiskChanges) -> System<'a> {
        System { rt, changes }
    }
}

impl<'a> BatchFiles for System<'a> {
    type Text = File;

    ghost text = { λ _ _. None };

    ghost lacks = { λ _ _. ⊤ };

    fn open(&self, path: &str) -> Result<File> {
        File::open(self.rt, path)
    }
}

impl<'a> Advice for System<'a> {
    fn explains(&self, path: &str) -> bool {
        if has_journal(self.rt, path) {
            let _said = eprintln!(self.rt;
                "moo: {path}: another program left {path}-journal (open it once by sqlite3)"
            );
            return true;
        }
        let has_auto_vacuum = read_front(self.rt, path).is_some_and(|front| front.has_auto_vacuum);
        if has_auto_vacuum {
            let _said = eprintln!(self.rt;
                "moo: {path}: has auto_vacuum, which moo doesn't read (sqlite3 {path} 'PRAGMA auto_vacuum=0; VACUUM')"
            );
        }
        has_auto_vacuum
    }

    fn notes_pages(&self, path: &str) {
        let size = read_front(self.rt, path).map_or(PAGE, |front| front.page_size);
        if size != PAGE {
            let _said = eprintln!(self.rt;
                "moo: {path}: pages of {size} bytes: a batch takes twice as long (OPERATING, 'Pages')"
            );
        }
    }
}

impl<'a, T: Start> WorldFiles<T> for System<'a> {
    type Disk = Telling<'a, FileFrom<T>, HostRuntime>;

    ghost may_open = { λ _ _. ⊤ };

    ghost refuses = { λ _ _ _. ⊤ };

    ghost denies = { λ _ _. ⊤ };

    fn metadata(&self, path: &str) -> Result<Metadata> {
        fs::metadata(self.rt, path)
    }

    fn seed(&self) -> Result<u64> {
        let state = RandomState::new(self.rt)?;
        Ok(state.hash_one(&0u8))
    }

    fn open_database(
        &self,
        path: &str,
        start: T,
    ) -> std::result::Result<Files<Telling<'a, FileFrom<T>, HostRuntime>>, OpenError> {
        if holds_lambdamoo(self.rt, path) {
            let _said = eprintln!(self.rt; "moo: {path}: {WHAT_TO_DO}");
            return Err(OpenError::Io(Error::from(ErrorKind::InvalidData)));
        }
        make_private(self.rt, path);
        let files = sqlite_std_file::open(self.rt, path, start)?;
        fresh_files_hold_start(&files);
        Ok(telling_files(files, self.rt, self.changes))
    }
}

/// Makes a file that only its owner may read, if no file is there. `sqlite_std_file` would make one that everybody may read, and gives its
/// log the rights that the file has.
fn make_private(rt: &HostRuntime, path: &str) {
    let _made = OpenOptions::new()
        .write(true)
        .create_new(true)
        .mode(0o600)
        .open(rt, path);
}

impl<'a> Ports for System<'a> {
    type Source = SocketDesk<'a>;

    fn listen(&mut self, port: u16) -> Option<SocketDesk<'a>> {
        SocketDesk::listen(self.rt, port).ok()
    }

    // A socket tells nothing of what is done to it. Dropped, it is closed.
    fn close(&mut self, source: SocketDesk<'a>)
        ensures { ⊤ }
    {
        let _closed = source;
    }
}
