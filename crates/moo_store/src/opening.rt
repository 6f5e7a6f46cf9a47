//! The rows of a connection whose tables are opened.

ghost use Rattle.std.specs.Prelude.{◌≡◌, false};
ghost use Rattle.sqlite.specs.Held.{state};
ghost use Rattle.moo_store.specs.OpeningRows.{Brings};

use crate::fault::StoreFault;
use crate::migrating::make_current;
use crate::reading::read_version_and_rows;
use moo_memory::Flat;
use sqlite::{Alter, Connection};
use std::alloc::Global;

/// The rows that the tables of a connection show. Tables of an earlier version are migrated to the present one, once the rows are found
/// to be those of a world. The faults are those of `adopt`.
pub(crate) fn open_rows<S: Alter>(
    alloc: Global,
    conn: &mut Connection<S>,
) -> Result<Flat, StoreFault>
    // The connection is in no transaction.
    requires outside { (state S.Store conn.old).in_transaction ≡ false }
    // The connection is in no transaction afterwards.
    ensures outside { (state S.Store conn.new).in_transaction ≡ false }
    // The rows are good, and those that the tables show, which were brought to the present version. A damage that a fault tells is the
    // first of the tables. A fault leaves the database as it was.
    ensures brings { Brings S.Store conn.old conn.new result }
{
    let (version, rows) = match read_version_and_rows(alloc, conn) {
        Ok(read) => read,
        Err(fault) => return Err(fault),
    };
    match make_current(alloc, conn, version, &rows) {
        Ok(()) => Ok(rows),
        Err(fault) => Err(fault),
    }
}
