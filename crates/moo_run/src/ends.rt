//! What a run leaves of the file of its words.

ghost use Rattle.moo_run.specs.Ends.{IsClosedEnd};

use moo_files::Remains;
use sqlite::{Connection, FileStore};
use sqlite_disk::Disk;

/// What a run leaves of the file of its words. `T` is the start that is spent on opening it.
#[derive(Drop)]
pub enum Ends<T, D: Disk> {
    /// The task ran over the world of this connection.
    Ran(Connection<FileStore<D>>),
    /// No world was opened or made.
    Refused(Remains<T, D>),
    /// It ran over a world in memory, or the words name no task. No file was opened: the start is unspent.
    NoFile(T),
}

impl<T: Drop, D: Disk + Drop> Ends<T, D> {
    /// Closes the file, and hands back what is left of it, to be dropped. If the words name no file, that is the unspent start.
    ///
    /// If it can't be closed, a part of what was committed is in its log alone, which the next open reads.
    pub fn close(self) -> Remains<T, D>
        // What the file then holds, and what a crash leaves of it, is what a crash might have left before.
        ensures { IsClosedEnd self result }
    {
        match self {
            Ends::Ran(conn) => Remains::Connection(conn).close(),
            Ends::Refused(remains) => remains.close(),
            Ends::NoFile(start) => Remains::Untouched(start),
        }
    }
}
