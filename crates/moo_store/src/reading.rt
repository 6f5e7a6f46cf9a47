//! The rows that the tables of a connection show.

ghost use Rattle.std.specs.Prelude.{◌≡◌, ◌≢◌, ◌⊎◌, ◌<◌, ◌^◌, IfOk, IfErr, IsTrue, OnOk, OnErr, false};
ghost use Rattle.sqlite.specs.{State.{HasCleanDisk}, Held.{state}};
ghost use Rattle.moo_rows.specs.Maps.{Maps};
ghost use Rattle.moo_world.specs.Rows.{IsGood};
ghost use Rattle.moo_tables_rows.specs.Tables.{Tables, present_schema, schema_of};
ghost use Rattle.moo_tables_rows.specs.{Inside.{Rests, IsCurrent, HasTables, ReadsTables, FailsToRead}, declared.version.Version.{Version}};
ghost use Rattle.moo_tables.specs.{ReadCause.{StopsQuery}, Listing.{AreListed, tables_of}};
ghost use Rattle.moo_cells.specs.Shows.{ShowsRows};
ghost use Rattle.moo_store.specs.{OpeningRows.{SaysOr, IsOfStore, StopsBy, not_ours}, Reading.{ReadsRowsAs, ReadsRows}};

use crate::fault::StoreFault;
use moo_cells::{CellFault, read_cells, read_in_turn};
use moo_memory::Flat;
use moo_tables::{CellLists, Version, are_listed, read_tables, version_of};
use sqlite::{Alter, Connection, Error, ErrorCode};
use std::alloc::Global;

/// The rows that the cells of the tables show, if they are those of a world. `Damaged`, `NewerVersion` and `OutOfMemory` as of
/// `read_cells`; `Store` with `DatabaseCorrupt` if the rows of a table aren't in the order of their keys, as of a failing disk.
fn rows_of_lists(alloc: Global, lists: CellLists) -> Result<Flat, StoreFault>
    // The tables show the rows that are read.
    ensures rows { IfOk result (λ rows. ShowsRows (tables_of lists) rows.maps) }
    // The rows that are read are those of a world.
    ensures good { IfOk result (λ rows. IsGood rows.maps) }
    // The number of the last batch is that of a cell, and so is below 2^63.
    ensures limit { IfOk result (λ rows. rows.maps.head.seq < 2 ^ 63) }
    // If the tables show good rows, those are the rows that are read.
    ensures one { (m : Maps) → ShowsRows (tables_of lists) m → IsGood m → IfOk result (λ rows. rows.maps ≡ m) }
    // A damage that is told is the first of the tables. Any other fault over rows in the order of their keys is OutOfMemory, or
    // NewerVersion of tables of a later version.
    ensures fault { IfErr result (λ fault. SaysOr (AreListed lists → fault ≡ StoreFault.OutOfMemory) (tables_of lists) fault) }
    // A fault never says that the tables aren't ours.
    ensures own { IfErr result (λ fault. fault ≢ not_ours) }
{
    if !are_listed(&lists) {
        return Err(StoreFault::Store(Error::SqliteFailure(ErrorCode::DatabaseCorrupt)));
    }
    match read_cells(alloc, lists) {
        Ok(rows) => Ok(rows),
        Err(CellFault::Damaged(kind, key)) => Err(StoreFault::Damaged(kind, key)),
        Err(CellFault::NewerVersion) => Err(StoreFault::NewerVersion),
        Err(CellFault::OutOfMemory) => Err(StoreFault::OutOfMemory),
    }
}

/// The fault that is told if the store fails over tables of ours. `NotADatabase` is kept for tables that aren't ours, and becomes
/// `DatabaseCorrupt`.
pub(crate) fn failure_of(error: Error) -> StoreFault
    // It is a fault of the store.
    ensures store { (told : _) × (result ≡ StoreFault.Store told) }
    // It doesn't say that the tables aren't ours.
    ensures own { result ≢ not_ours }
    // Any other error is told as it is.
    ensures same { error ≢ Error.SqliteFailure ErrorCode.NotADatabase → result ≡ StoreFault.Store error }
{
    match error {
        Error::SqliteFailure(ErrorCode::NotADatabase) => {
            StoreFault::Store(Error::SqliteFailure(ErrorCode::DatabaseCorrupt))
        }
        error => StoreFault::Store(error),
    }
}

/// Reads the cells of our tables, which are of this version. Nothing is written. The only fault is Store.
#[tactic(auto, using(moo_tables::proofs::ListedLemmas::lists_are, crate::proofs::Causes::rows_rise, crate::proofs::Causes::readings))]
pub(crate) fn read_lists<S: Alter>(
    alloc: Global,
    conn: &mut Connection<S>,
    version: Version,
) -> Result<CellLists, StoreFault>
    // The connection is in no transaction.
    requires outside { (state S.Store conn.old).in_transaction ≡ false }
    // The connection is in no transaction afterwards.
    ensures outside { (state S.Store conn.new).in_transaction ≡ false }
    // If it succeeds, nothing changed.
    ensures read { OnOk result (ReadsTables (schema_of version) (state S.Store conn.old) (state S.Store conn.new)) }
    // The lists are the rows of the tables, if the disk returned what was written.
    ensures listed { HasCleanDisk (state S.Store conn.new) →
        IfOk result (λ lists. (tables : Tables) → tables.version ≡ version → Rests (state S.Store conn.old) tables →
        tables_of lists ≡ tables) }
    // In each list the keys are whole numbers, and each is above the one before, if the disk returned what was written.
    ensures rise { HasCleanDisk (state S.Store conn.new) →
        IfOk result (λ lists. (tables : Tables) → tables.version ≡ version → Rests (state S.Store conn.old) tables →
        AreListed lists) }
    // If it fails, nothing changed, or the transaction was rolled back.
    ensures failed { OnErr result (FailsToRead (schema_of version) (state S.Store conn.old) (state S.Store conn.new)) }
    // It fails only if a query of the tables stops, or if memory runs out.
    ensures cause { HasCleanDisk (state S.Store conn.new) → HasTables (schema_of version) (state S.Store conn.old) →
        IfErr result (StopsBy (StopsQuery (state S.Store conn.old) (state S.Store conn.new))) }
    // A fault is one of the store.
    ensures fault { IfErr result (λ fault. (error : _) × (fault ≡ StoreFault.Store error)) }
    // A fault never says that the tables aren't ours.
    ensures own { IfErr result (λ fault. fault ≢ not_ours) }
{
    match read_tables(alloc, conn, version) {
        Ok(lists) => Ok(lists),
        Err(error) => Err(failure_of(error)),
    }
}

/// The version of the tables of a connection, by their list alone. Store with `NotADatabase` if they aren't ours; `OutOfMemory`.
pub(crate) fn test_tables<S: Alter>(
    alloc: Global,
    conn: &Connection<S>,
) -> Result<Version, StoreFault>
    // The database has just the tables of the version.
    ensures ours { IfOk result (λ version. HasTables (schema_of version) (state S.Store conn.now)) }
    // A fault is one of the store or of memory.
    ensures fault { IfErr result IsOfStore }
    // Over tables of ours the only fault is that memory ran out.
    ensures own { IfErr result (λ fault. (version : Version) → HasTables (schema_of version) (state S.Store conn.now) →
        fault ≡ StoreFault.OutOfMemory) }
    // Outside a transaction an open connection shows what is committed.
    ensures settled { IsTrue (state S.Store conn.now).is_open → (state S.Store conn.now).in_transaction ≡ false →
        (state S.Store conn.now).now ≡ (state S.Store conn.now).committed }
{
    let _settled = conn.is_autocommit();
    match version_of(alloc, conn.schema()) {
        Ok(Some(version)) => Ok(version),
        Ok(None) => Err(StoreFault::Store(Error::SqliteFailure(ErrorCode::NotADatabase))),
        Err(_) => Err(StoreFault::OutOfMemory),
    }
}

/// Tests that the tables are ours, and of the present version ('current' in a contract). Store with `NotADatabase` if not; `OutOfMemory`.
pub(crate) fn test_current<S: Alter>(alloc: Global, conn: &Connection<S>) -> Result<(), StoreFault>
    // The database has just the tables of the present version.
    ensures ours { OnOk result (HasTables present_schema (state S.Store conn.now)) }
    // A fault is one of the store or of memory.
    ensures fault { IfErr result IsOfStore }
    // Over tables of ours the only faults are OutOfMemory, and `NotADatabase` of tables that aren't of the present version.
    ensures own { IfErr result (λ fault. (tables : Tables) → Rests (state S.Store conn.now) tables →
        (fault ≡ StoreFault.OutOfMemory) ⊎ ((¬ IsCurrent tables) × (fault ≡ not_ours))) }
{
    match test_tables(alloc, conn) {
        Ok(version) if version.is_present() => Ok(()),
        Ok(_) => Err(StoreFault::Store(Error::SqliteFailure(ErrorCode::NotADatabase))),
        Err(fault) => Err(fault),
    }
}

/// Reads the rows that the tables of this version show, all tables at once, so that it can tell what is wrong with them. The faults are
/// those of `rows_of_lists` and `read_lists`.
#[tactic(auto, using(crate::proofs::Causes::readings))]
fn read_whole<S: Alter>(
    alloc: Global,
    conn: &mut Connection<S>,
    version: Version,
) -> Result<Flat, StoreFault>
    // The connection is in no transaction.
    requires outside { (state S.Store conn.old).in_transaction ≡ false }
    // The connection is in no transaction afterwards.
    ensures outside { (state S.Store conn.new).in_transaction ≡ false }
    // The rows are good, and those that the tables show. A damage that a fault tells is the first of the tables. Nothing is written.
    ensures reads { ReadsRowsAs version (state S.Store conn.old) (state S.Store conn.new) result }
{
    let lists = match read_lists(alloc, conn, version) {
        Ok(lists) => lists,
        Err(fault) => return Err(fault),
    };
    match rows_of_lists(alloc, lists) {
        Ok(rows) => Ok(rows),
        Err(fault) => Err(fault),
    }
}

/// Reads the rows that the tables of this version show, one table after another. Only if they show no world, or if memory ran out, all are
/// read again at once. The faults: `Damaged` with the first damage, `NewerVersion`, `OutOfMemory`, and Store, but never with
/// `NotADatabase`.
#[tactic(auto, using(crate::proofs::Causes::readings))]
fn read_each<S: Alter>(
    alloc: Global,
    conn: &mut Connection<S>,
    version: Version,
) -> Result<Flat, StoreFault>
    // The connection is in no transaction.
    requires outside { (state S.Store conn.old).in_transaction ≡ false }
    // The connection is in no transaction afterwards.
    ensures outside { (state S.Store conn.new).in_transaction ≡ false }
    // The rows are good, and those that the tables show. A damage that a fault tells is the first of the tables. Nothing is written.
    ensures reads { ReadsRowsAs version (state S.Store conn.old) (state S.Store conn.new) result }
{
    match read_in_turn(alloc, conn, version) {
        Ok(Some(rows)) => Ok(rows),
        Ok(None) => match read_whole(alloc, conn, version) {
            Ok(rows) => Ok(rows),
            Err(fault) => Err(fault),
        },
        Err(error) => Err(failure_of(error)),
    }
}

/// Reads the version of the tables of a connection, and the rows that they show. Nothing is written. The faults are those of `adopt`.
#[tactic(auto, using(crate::proofs::Moments::version_is))]
pub(crate) fn read_version_and_rows<S: Alter>(
    alloc: Global,
    conn: &mut Connection<S>,
) -> Result<(Version, Flat), StoreFault>
    // The connection is in no transaction.
    requires outside { (state S.Store conn.old).in_transaction ≡ false }
    // The connection is in no transaction afterwards.
    ensures outside { (state S.Store conn.new).in_transaction ≡ false }
    // Outside a transaction an open connection shows what is committed.
    ensures settled { IsTrue (state S.Store conn.old).is_open → (state S.Store conn.old).now ≡ (state S.Store conn.old).committed }
    // The tables are of the version, and the rows are good, and those that they show. A damage that a fault tells is the first of the
    // tables. Nothing is written.
    ensures reads { ReadsRows S.Store conn.old conn.new result }
{
    let version = match test_tables(alloc, conn) {
        Ok(version) => version,
        Err(fault) => return Err(fault),
    };
    match read_each(alloc, conn, version) {
        Ok(rows) => Ok((version, rows)),
        Err(fault) => Err(fault),
    }
}
