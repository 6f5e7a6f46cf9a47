//! New worlds.

ghost use Rattle.std.specs.Prelude.{◌≡◌, false};
ghost use Rattle.sqlite.specs.Held.{state};
ghost use Rattle.moo_rows.specs.Opening.{opening_maps};
ghost use Rattle.moo_store.specs.Loading.{Loads};

use crate::fault::StoreFault;
use crate::loading::{TAKEN, is_new, load_in};
use crate::world::World;
use moo_memory::opening_world;
use moo_world::laws::good_opening;
use sqlite::{Alter, Connection};
use std::alloc::Global;

/// Makes the tables of a new world in a database that has none, in one transaction, and answers the World over them: `seq`
/// is 0, and its objects are the system object, the root class, the first room and the wizard.
///
/// The connection has to be in no transaction (`is_autocommit`), and comes back at each refusal. OutOfMemory: nothing was done. Store with
/// `ErrorCode::NameTaken`: the database has a table, an index or a view already, and stays as it is. Any other Store: the store failed; its
/// tables are as they were, and a crash may leave those of the opening world.
pub fn create_in<S: Alter + Drop>(
    alloc: Global,
    conn: Connection<S>,
) -> Result<World<S>, (StoreFault, Connection<S>)>
    // The connection is in no transaction.
    requires outside { (state S.Store conn).in_transaction ≡ false }
    // The World of the opening rows, with their numbers, each in its printed cells, and no other row in any table. A database that has
    // tables is refused, and comes back as it is; so it does if memory runs out. If the store fails its tables are as they were, and a
    // crash leaves what it could leave before, or the opening world, in the same cells.
    ensures loads { Loads S.Store opening_maps conn result }
{
    // It is asked first, so that a database with tables is refused as such even if memory runs out.
    if !is_new(&conn) {
        return Err((TAKEN, conn));
    }
    let Ok(rows) = opening_world(alloc) else {
        return Err((StoreFault::OutOfMemory, conn));
    };
    good_opening();
    load_in(alloc, conn, rows)
}
