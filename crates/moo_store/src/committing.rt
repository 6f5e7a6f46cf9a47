//! Changes of rows, committed to the tables of a store.

ghost use Rattle.std.specs.Prelude.{◌≡◌, ◌<◌, ◌^◌, false};
ghost use Rattle.sqlite.specs.Held.{state};
ghost use Rattle.moo_store.specs.CommittingCells.{CommitsCells};

use moo_tables::{CellChanges, commit_changes};
use sqlite::{Alter, Connection, Error};

/// Commits the printed changes of rows in one transaction, all or nothing.
pub(crate) fn commit_cells<S: Alter>(
    conn: &mut Connection<S>,
    cells: &CellChanges,
) -> Result<(), Error>
    // The number of the last batch fits a cell, which is a signed number of 64 bits.
    requires limit { cells.now.head.seq < 2 ^ 63 }
    // The connection is in no transaction.
    requires outside { (state S.Store conn.old).in_transaction ≡ false }
    // The connection is in no transaction afterwards.
    ensures outside { (state S.Store conn.new).in_transaction ≡ false }
    // The changes were committed to the tables of the present version; or none was, and there is a cause. A crash leaves what it could
    // leave before, or the changed tables.
    ensures commits { CommitsCells cells.now (state S.Store conn.old) (state S.Store conn.new) result }
{
    commit_changes(conn, cells)
}
