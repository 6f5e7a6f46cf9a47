//! The tables of whole worlds.

ghost use Rattle.std.specs.Prelude.{◌≡◌, ◌<◌, ◌^◌, IsTrue, ◌↔◌, false};
ghost use Rattle.sqlite.specs.Held.{state};
ghost use Rattle.moo_world.specs.Rows.{IsGood};
ghost use Rattle.moo_tables_rows.specs.Tables.{no_schema};
ghost use Rattle.moo_store.specs.Loading.{Loads};

use crate::fault::StoreFault;
use crate::printing::print_all;
use crate::world::World;
use moo_memory::Flat;
use moo_tables::create_in as create_tables;
use sqlite::{Alter, Connection, Error, ErrorCode};
use std::alloc::Global;

/// The fault of a database that has tables already.
pub(crate) const TAKEN: StoreFault = StoreFault::Store(Error::SqliteFailure(ErrorCode::NameTaken));

/// Whether a database has no tables, and so nothing at all.
pub(crate) fn is_new<S: Alter + Drop>(conn: &Connection<S>) -> bool
    ensures { IsTrue result ↔ ((state S.Store conn.now).now.schema ≡ no_schema) }
{
    let schema = conn.schema();
    schema.tables.is_empty() && schema.indexes.is_empty() && schema.views.is_empty()
}

/// Makes the tables of these rows in a database that has none, in one transaction, and answers the World over them.
///
/// The rows have to be good, `seq` below 2^63, and the connection in no transaction (`is_autocommit`). The connection comes back at each
/// refusal. OutOfMemory: nothing was done. Store with `ErrorCode::NameTaken`: the database has a table, an index or a view already, and
/// stays as it is. Any other Store: the store failed; its tables are as they were, and a crash may leave those of the rows.
pub fn load_in<S: Alter + Drop>(
    alloc: Global,
    conn: Connection<S>,
    rows: Flat,
) -> Result<World<S>, (StoreFault, Connection<S>)>
    // The connection is in no transaction.
    requires outside { (state S.Store conn).in_transaction ≡ false }
    // The rows are good: sound rows of a well formed world, and petitions as they may be beside it.
    requires good { IsGood rows.maps }
    // The number of the last batch fits a cell, which is a signed number of 64 bits.
    requires limit { rows.maps.head.seq < 2 ^ 63 }
    // The World of these very rows, with their numbers, each in its printed cells, and no other row in any table. A database that has
    // tables is refused, and comes back as it is; so it does if memory runs out. If the store fails its tables are as they were, and a
    // crash leaves what it could leave before, or these rows, in the same cells.
    ensures loads { Loads S.Store rows.maps conn result }
{
    if !is_new(&conn) {
        return Err((TAKEN, conn));
    }
    let Ok(cells) = print_all(alloc, &rows) else {
        return Err((StoreFault::OutOfMemory, conn));
    };
    match create_tables(conn, &cells) {
        Ok(connection) => Ok(World::over(alloc, connection, rows)),
        Err((error, conn)) => Err((StoreFault::Store(error), conn)),
    }
}
