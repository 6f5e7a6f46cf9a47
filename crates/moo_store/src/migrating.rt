//! Tables of an earlier version, migrated to the present one.

ghost use Rattle.std.specs.Prelude.{◌≡◌, ◌≢◌, ◌⊎◌, ◌<◌, ◌^◌, None, IfOk, IfErr, IsTrue, OnOk, OnErr, false};
ghost use Rattle.sqlite.specs.{State.{HasCleanDisk, Survives}, Held.{state}};
ghost use Rattle.moo_tables_rows.specs.{Tables.{Tables, schema_of}, Cause.{StopsChange}, Inside.{Rests, RestsAt, HasTables}};
ghost use Rattle.moo_tables_rows.specs.{Version.{IsEarlier}, declared.version.Version.{Version}};
ghost use Rattle.moo_cells.specs.Shows.{ShowsRows};
ghost use Rattle.moo_store.specs.{States.{KeepsRows}, Current.{RestsCurrent}, OpeningRows.{IsOfStore, StopsBy, TakesOver, not_ours}};
ghost use Rattle.moo_store.specs.Printed.{PrintEach, PrintsSlot, all_of};

use crate::fault::StoreFault;
use crate::printing::print_all_of;
use crate::reading::failure_of;
use moo_memory::Flat;
use moo_rows::{PropId, Rows, SlotRow};
use moo_tables::{SlotCells, Version, migrate};
use moo_value::ObjNo;
use sqlite::{Alter, Connection};
use std::alloc::{AllocError, Global};

/// The cells of all slots, in the order of their keys, as those of new rows. The only error is a lack of memory.
fn print_slots(
    alloc: Global,
    rows: &Flat,
) -> Result<Vec<((ObjNo, PropId), Option<SlotCells>)>, AllocError>
    ensures { IfOk result (λ cells. PrintEach (λ key. PrintsSlot None) cells.items (all_of rows.now.maps.slots)) }
{
    print_all_of::<(ObjNo, PropId), SlotCells, SlotRow>(alloc, rows)
}

/// Migrates tables of an earlier version, which show these rows, to the present one in one transaction.
///
/// OutOfMemory: nothing was done. Store: the store failed; if the connection is still open, the tables are as they were.
#[tactic(auto, using(crate::proofs::Causes::told_so, crate::proofs::Causes::no_change_otherwise))]
fn migrate_rows<S: Alter>(
    alloc: Global,
    conn: &mut Connection<S>,
    rows: &Flat,
) -> Result<(), StoreFault>
    // The number of the last batch fits a cell, which is a signed number of 64 bits.
    requires limit { rows.now.maps.head.seq < 2 ^ 63 }
    // The connection is in no transaction.
    requires outside { (state S.Store conn.old).in_transaction ≡ false }
    // The connection is in no transaction afterwards.
    ensures outside { (state S.Store conn.new).in_transaction ≡ false }
    // A fault never tells of damage: memory ran out, or the store failed.
    ensures fault { IfErr result IsOfStore }
    // A fault never says that the tables aren't ours.
    ensures own { IfErr result (λ fault. fault ≢ not_ours) }
    // If the tables are of an earlier version, memory ran out, or the store failed for one of the causes of any change.
    ensures cause { HasCleanDisk (state S.Store conn.new) →
        IfErr result (λ fault. (tables : Tables) → Rests (state S.Store conn.old) tables → IsEarlier tables.version →
        StopsBy (StopsChange (state S.Store conn.old) (state S.Store conn.new)) fault) }
    // If it succeeds, tables of an earlier version that showed these rows have become tables of the present one that show them.
    ensures keeps { HasCleanDisk (state S.Store conn.new) →
        OnOk result ((tables : Tables) → Rests (state S.Store conn.old) tables → IsEarlier tables.version →
        ShowsRows tables rows.now.maps → KeepsRows (state S.Store conn.new) rows.now.maps) }
    // The new tables show these rows; the cells of objects, properties and verbs stay, and `slot` is empty.
    ensures rests { HasCleanDisk (state S.Store conn.new) →
        OnOk result ((tables : Tables) → Rests (state S.Store conn.old) tables → IsEarlier tables.version →
        ShowsRows tables rows.now.maps → RestsCurrent (state S.Store conn.new) (state S.Store conn.old).now.trees tables rows.now.maps) }
    // After a fault the connection is untouched, or, if it is still open, its database is as it was committed.
    ensures undone { OnErr result ((conn.new ≡ conn.old)
        ⊎ (HasCleanDisk (state S.Store conn.new) → IsTrue (state S.Store conn.new).is_open →
        RestsAt (state S.Store conn.new) (state S.Store conn.old).committed)) }
    // A crash leaves what it could leave before, or tables that show the same rows.
    ensures crash { (version : Version) → IsEarlier version →
        (HasCleanDisk (state S.Store conn.old) → HasTables (schema_of version) (state S.Store conn.old)) →
        Survives (state S.Store conn.old) (state S.Store conn.new) (TakesOver rows.now.maps (state S.Store conn.old)) }
{
    let Ok(slots) = print_slots(alloc, rows) else {
        return Err(StoreFault::OutOfMemory);
    };
    match migrate(conn, &rows.head(), &slots) {
        Ok(()) => Ok(()),
        Err(error) => Err(failure_of(error)),
    }
}

/// Brings tables of this version, which show these rows, to the present version: those of an earlier one are migrated, and those of the
/// present one stay. ('Current' in a contract is 'present' of `Version`.)
///
/// OutOfMemory: nothing was done. Store: the store failed; if the connection is still open, the tables are as they were.
#[tactic(auto, using(crate::proofs::OpenLemmas::rests_already))]
pub(crate) fn make_current<S: Alter>(
    alloc: Global,
    conn: &mut Connection<S>,
    version: Version,
    rows: &Flat,
) -> Result<(), StoreFault>
    // The number of the last batch fits a cell, which is a signed number of 64 bits.
    requires limit { rows.now.maps.head.seq < 2 ^ 63 }
    // The connection is in no transaction.
    requires outside { (state S.Store conn.old).in_transaction ≡ false }
    // The connection is in no transaction afterwards.
    ensures outside { (state S.Store conn.new).in_transaction ≡ false }
    // A fault never tells of damage: memory ran out, or the store failed.
    ensures fault { IfErr result IsOfStore }
    // A fault never says that the tables aren't ours.
    ensures own { IfErr result (λ fault. fault ≢ not_ours) }
    // Tables of the present version give no fault.
    ensures earlier { OnErr result (IsEarlier version) }
    // If the tables are of this version, memory ran out, or the store failed for one of the causes of any change.
    ensures cause { HasCleanDisk (state S.Store conn.new) →
        IfErr result (λ fault. (tables : Tables) → Rests (state S.Store conn.old) tables → tables.version ≡ version →
        StopsBy (StopsChange (state S.Store conn.old) (state S.Store conn.new)) fault) }
    // If it succeeds, tables of this version that showed these rows have become tables of the present one that show them.
    ensures keeps { HasCleanDisk (state S.Store conn.new) →
        OnOk result ((tables : Tables) → Rests (state S.Store conn.old) tables → tables.version ≡ version →
        ShowsRows tables rows.now.maps → KeepsRows (state S.Store conn.new) rows.now.maps) }
    // Tables of the present version are as they were. Of others the cells of objects, properties and verbs stay, and `slot` is empty.
    ensures rests { HasCleanDisk (state S.Store conn.new) →
        OnOk result ((tables : Tables) → Rests (state S.Store conn.old) tables → tables.version ≡ version →
        ShowsRows tables rows.now.maps → RestsCurrent (state S.Store conn.new) (state S.Store conn.old).now.trees tables rows.now.maps) }
    // After a fault the connection is untouched, or, if it is still open, its database is as it was committed.
    ensures undone { OnErr result ((conn.new ≡ conn.old)
        ⊎ (HasCleanDisk (state S.Store conn.new) → IsTrue (state S.Store conn.new).is_open →
        RestsAt (state S.Store conn.new) (state S.Store conn.old).committed)) }
    // A crash leaves what it could leave before, or, of an earlier version, tables that show the same rows.
    ensures crash { (HasCleanDisk (state S.Store conn.old) → HasTables (schema_of version) (state S.Store conn.old)) →
        Survives (state S.Store conn.old) (state S.Store conn.new)
        (λ trees. IsEarlier version × TakesOver rows.now.maps (state S.Store conn.old) trees) }
{
    if version.is_present() {
        return Ok(());
    }
    migrate_rows(alloc, conn, rows)
}
