//! The program doesn't come this way. After a crash a new start opens the file. The law `a_crash_is_taken_up` speaks of this call.

ghost use Rattle.std.specs.Prelude.{◌≡◌, false, IfSome};
ghost use Rattle.sqlite.specs.{Held.{state}, State.{HasCleanDisk}};
ghost use Rattle.moo_tables_rows.specs.Inside.{MayOpenAs};

use sqlite::{Alter, Connection};
use sqlite_trees::store::{Reopen, Store};
use std::alloc::Global;

/// Takes the store from the connection, crashes it, and opens a connection on what the crash left. None if it can't be opened again.
pub fn crash_and_open<S: Alter + Reopen + Drop>(
    alloc: Global,
    conn: Connection<S>,
) -> Option<Connection<S>>
    // If the disk is clean, the new connection has one of the contents that a crash of the old one may leave.
    ensures opened { IfSome result (λ again. HasCleanDisk (state S.Store again) → MayOpenAs (state S.Store conn) (state S.Store again)) }
    // The new connection is in no transaction.
    ensures outside { IfSome result (λ again. (state S.Store again).in_transaction ≡ false) }
{
    let mut store = conn.into_store();
    if store.crash_and_reopen().is_err() {
        return None;
    }
    match Connection::over(alloc, store) {
        Ok(again) => Some(again),
        Err(_) => None,
    }
}
