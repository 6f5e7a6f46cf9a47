//! Opening the world that a store holds.

ghost use Rattle.std.specs.Prelude.{◌≡◌, false};
ghost use Rattle.sqlite.specs.Held.{state};
ghost use Rattle.moo_store.specs.Opening.{Adopting};

use crate::fault::StoreFault;
use crate::opening::open_rows;
use crate::world::World;
use sqlite::{Alter, Connection};
use std::alloc::Global;

/// Opens the world that the tables of a connection show.
///
/// Tables of an earlier version are migrated to the present one, in one transaction, once the whole world was read and found sound.
/// They show the same world then. Nothing else is written.
///
/// The connection has to be in no transaction (`is_autocommit`), and comes back at each refusal, with its tables as they were
/// if it is still open.
/// Store: the store failed, or it has other tables than ours (`ErrorCode::NotADatabase`), or ours made in another order. Damaged
/// and NewerVersion: the tables show no world, and the fault says where, or they are of a later version. OutOfMemory: memory ran out.
pub fn adopt<S: Alter + Drop>(
    alloc: Global,
    mut conn: Connection<S>,
) -> Result<World<S>, (StoreFault, Connection<S>)>
    // The connection is in no transaction.
    requires outside { (state S.Store conn).in_transaction ≡ false }
    // Our tables of any version that show a world give a World that works at the moment that they show, brought to the present version,
    // unless the store fails or memory runs out. No other tables are opened. A damage that a fault tells is the first of the tables. A
    // refusal leaves the database as it was.
    ensures adopts { Adopting S.Store conn result }
{
    match open_rows(alloc, &mut conn) {
        Ok(rows) => Ok(World::over(alloc, conn, rows)),
        Err(fault) => Err((fault, conn)),
    }
}
