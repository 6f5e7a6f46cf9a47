//! Closing a connection to the files of a world.

ghost use Rattle.sqlite.specs.{State.{HasCleanDisk}, Files.{file_state, IsCleanLeft}};
ghost use Rattle.moo_files.specs.{Closing.{IsLeftOf, IsClosedAs}, Stop.{IsNumberedStore, KeepsTreesNumbered}};

use sqlite::{Connection, FileStore, Leftover};
use sqlite_disk::Disk;
use sqlite_trees::store::Store;

/// Closes a connection: what wasn't committed is rolled back, and its log is copied into the database file. The two files come
/// back, or the store if that failed; either is shut when it is dropped.
///
/// If closing failed, a part of what was committed may be in the log alone, which the next open reads.
pub fn close_connection<D: Disk + Drop>(conn: Connection<FileStore<D>>) -> Leftover<D>
    // If the disk is clean after the closing, it was clean before.
    ensures clean { IsCleanLeft result → HasCleanDisk (file_state conn) }
    // If the disk is clean after the closing (`IsCleanLeft`, here and below), what the files then hold, and what a crash leaves of them, is
    // a database that a crash might have left before. If closing failed, so is what the next open finds.
    ensures left { IsCleanLeft result → IsLeftOf (file_state conn) result }
    // On a clean disk the files then hold the last commit, in the database file alone; or closing failed, and the store came back.
    ensures copied { IsClosedAs conn result }
    // The trees of the connection were numbered. So if it had been stopped, what the disk left of its files was a database too
    // (`disk_leaves_a_database`).
    ensures numbered { IsCleanLeft result → IsNumberedStore conn.store }
    // They are numbered too in a store that couldn't be closed, if it is open still, or was shut before.
    ensures numbers { IsCleanLeft result → KeepsTreesNumbered conn result }
{
    // These are the steps of `sqlite`'s `close_files`, which doesn't say that the trees are numbered: `into_store` does. A store
    // that is broken has no checkpoint: after a failed one nothing would tell whether its trees are numbered still.
    let mut store = conn.into_store();
    store.rollback();
    if store.is_broken() {
        return Leftover::Store(store);
    }
    match store.checkpoint() {
        Ok(()) => Leftover::Files(store.close()),
        Err(_error) => Leftover::Store(store),
    }
}
