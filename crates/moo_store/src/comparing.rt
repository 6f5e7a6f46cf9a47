//! Whether the tables of a connection show given rows.

ghost use Rattle.std.specs.Prelude.{◌≡◌, ◌≢◌, IfOk, IfErr, OnOk, false, length};
ghost use Rattle.sqlite.specs.Held.{state};
ghost use Rattle.moo_world.specs.{ObjectLists.{objects_of}, Rows.{IsGood, world_of}};
ghost use Rattle.moo_tables.specs.Listing.{AreListed, tables_of};
ghost use Rattle.moo_cells.specs.Shows.{ShowsRows};
ghost use Rattle.moo_store.specs.{OpeningRows.{IsOfStore}, Checked.{SaysInCheck, KeepsTables, Checks}};

use crate::fault::StoreFault;
use crate::reading::{failure_of, read_lists, test_current};
use moo_cells::{CellFault, compare_cells, show_in_turn};
use moo_damage::Kind;
use moo_memory::Flat;
use moo_rows::object_count;
use moo_tables::{CellLists, Version, are_listed};
use sqlite::{Alter, Connection, Error, ErrorCode};
use std::alloc::Global;

/// The number of objects, if the cells of the tables show these rows. `Damaged`: they don't, or they show no world; `NewerVersion`;
/// `OutOfMemory`; `Store` with `DatabaseCorrupt` if the rows of a table aren't in the order of their keys, as of a failing disk.
fn compare_lists(alloc: Global, lists: CellLists, own: &Flat) -> Result<u64, StoreFault>
    // The given rows are those of a world.
    requires good { IsGood own.now.maps }
    // If a number is answered, the tables show the given rows.
    ensures shown { OnOk result (ShowsRows (tables_of lists) own.now.maps) }
    ensures count { IfOk result (λ count. count ≡ length (objects_of (world_of own.now.maps))) }
    // A damage that is told is the first of the tables, or the first row in which they differ from the given ones. Any other fault over
    // rows in the order of their keys is OutOfMemory, or NewerVersion of tables of a later version.
    ensures fault { IfErr result (λ fault.
        SaysInCheck (AreListed lists → fault ≡ StoreFault.OutOfMemory) own.now.maps (tables_of lists) fault) }
    // Of tables that show the given rows no damage is told.
    ensures whole { ShowsRows (tables_of lists) own.now.maps → IfErr result IsOfStore }
    // The fault is never Closed.
    ensures worked { IfErr result (λ fault. fault ≢ StoreFault.Closed) }
{
    if !are_listed(&lists) {
        return Err(StoreFault::Store(Error::SqliteFailure(ErrorCode::DatabaseCorrupt)));
    }
    match compare_cells(alloc, lists, own) {
        Ok(None) => Ok(object_count(own)),
        Ok(Some(key)) => Err(StoreFault::Damaged(Kind::Mismatch, key)),
        Err(CellFault::Damaged(kind, key)) => Err(StoreFault::Damaged(kind, key)),
        Err(CellFault::NewerVersion) => Err(StoreFault::NewerVersion),
        Err(CellFault::OutOfMemory) => Err(StoreFault::OutOfMemory),
    }
}

/// The number of objects, if the tables of a connection show these rows. Nothing is written.
///
/// The tables are compared one after another. Only if a row differs, or if memory ran out, all are read again at once, to tell what is
/// wrong. The faults are those of `World::check`.
#[tactic(auto, using(crate::proofs::CompareLemmas::checks))]
pub(crate) fn check_rows<S: Alter>(
    alloc: Global,
    conn: &mut Connection<S>,
    own: &Flat,
) -> Result<u64, StoreFault>
    // The connection is in no transaction.
    requires outside { (state S.Store conn.old).in_transaction ≡ false }
    // The given rows are those of a world.
    requires good { IsGood own.now.maps }
    // The connection is in no transaction afterwards.
    ensures outside { (state S.Store conn.new).in_transaction ≡ false }
    // If a number is answered, the tables show the given rows. A damage that is told is the first of the tables, or the first row in which
    // they differ from the given ones. Any other fault has a cause.
    ensures checks { Checks own.now.maps (state S.Store conn.old) (state S.Store conn.new) result }
    // What is in the tables stays there, and a crash leaves what it could leave before.
    ensures keeps { KeepsTables (state S.Store conn.old) (state S.Store conn.new) }
    // The fault is never Closed.
    ensures worked { IfErr result (λ fault. fault ≢ StoreFault.Closed) }
{
    match test_current(alloc, conn) {
        Ok(()) => {}
        Err(fault) => return Err(fault),
    }
    let shown = match show_in_turn(alloc, conn, Version::PRESENT, own) {
        Ok(shown) => shown,
        Err(error) => return Err(failure_of(error)),
    };
    if shown {
        return Ok(object_count(own));
    }
    match read_lists(alloc, conn, Version::PRESENT) {
        Ok(lists) => compare_lists(alloc, lists, own),
        Err(fault) => Err(fault),
    }
}
