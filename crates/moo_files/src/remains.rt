//! What is left of the files of a world after a refusal.

ghost use Rattle.sqlite.specs.Tree.{Trees};
ghost use Rattle.sqlite_wal.specs.Recovery.{Image};
ghost use Rattle.moo_world.specs.Judge.{State};
ghost use Rattle.moo_files.specs.{Contents.{ReadsAs}, Closing.{IsClosedFrom}};
ghost use Rattle.moo_files.specs.Remains.{IsCleanRemains, StillHolds, StillHoldsTrees, KeepsNothingBut, Spares};

use crate::closing::close_connection;
use crate::pair::NotOpened;
use sqlite::{Connection, FileStore, Leftover};
use sqlite_disk::Disk;

/// What is left of the files if no world was opened or made. `T` is the start that is spent on opening them.
#[derive(Drop)]
pub enum Remains<T, D: Disk> {
    /// No file was opened: no file has this name, the file holds no byte, or the name isn't a path. The start is unspent.
    Untouched(T),
    /// The start was spent on files that couldn't be opened, and nothing came back.
    NotOpened(NotOpened<T>),
    /// What `sqlite` left of files that aren't a database, or that it couldn't read as one.
    Leftover(Leftover<D>),
    /// The connection, outside a transaction.
    Connection(Connection<FileStore<D>>),
}

impl<T: Drop, D: Disk + Drop> Remains<T, D> {
    /// Closes a connection, as `close_connection` does; anything else comes back as it is.
    pub fn close(self) -> Remains<T, D>
        // A connection is closed. On a clean disk each table had the place that SQLite's own list of tables gives it (`IsNumberedStore`),
        // and what the files then hold, or a crash leaves, is a database that a crash might have left before, with the last commit in the
        // database file alone. Or closing failed, and a store came back that leaves such a database too; its tables have such places too if
        // it is open still, or was shut before the closing (`IsClosedFrom`). Anything else is as it was.
        ensures closed { IsClosedFrom self result }
        // If the disk returned what was written until they were closed (`IsCleanRemains`, here and below), files that held a state before
        // that hold it still, and so does what a crash leaves of them.
        ensures state { (image : Image) (s : State) → (IsCleanRemains self → StillHolds image self s) → IsCleanRemains result →
            StillHolds image result s }
        // Files that held a database hold it still, or what it was migrated to.
        ensures trees { (image : Image) (trees : Trees) → (IsCleanRemains self → StillHoldsTrees image self trees) → IsCleanRemains result →
            StillHoldsTrees image result trees }
        // Files that held nothing, or a database without rows, hold one of the two still.
        ensures blank { (image : Image) → (IsCleanRemains self → KeepsNothingBut (λ _. ⊥) image self) → IsCleanRemains result →
            KeepsNothingBut (λ _. ⊥) image result }
        // Files that read as no sound database, and were spared, are spared still.
        ensures spared { (image : Image) → ((trees : Trees) → ¬ ReadsAs image trees) → (IsCleanRemains self → Spares image self) →
            IsCleanRemains result → Spares image result }
    {
        match self {
            Remains::Connection(conn) => Remains::Leftover(close_connection(conn)),
            other => other,
        }
    }

    /// Lets go of what is left: files that are open are shut. A connection is closed first, as `close` does it.
    ///
    /// A function that dropped a store in files itself would take long to prove.
    pub fn shut(self) {
        match self {
            Remains::Untouched(_start) => {}
            Remains::NotOpened(_seal) => {}
            Remains::Leftover(_left) => {}
            Remains::Connection(conn) => {
                let _left = close_connection(conn);
            }
        }
    }
}
