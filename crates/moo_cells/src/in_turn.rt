//! The rows of a world, from the tables of a connection, one table after another: of a large table only the cells of a block are held at a
//! time.
//!
//! What is wrong with tables isn't told here. Whoever wants to know it reads them all (`read_tables` of `moo_tables`, `read_cells`).

ghost use Rattle.std.specs.{Prelude.{◌≡◌, ◌<◌, ◌^◌, IfOk, IfSome, true}, FinMap.{empty}};
ghost use Rattle.sqlite.specs.{Held.{state}, State.{HasCleanDisk}};
ghost use Rattle.moo_rows.specs.Maps.{Maps, no_maps};
ghost use Rattle.moo_world.specs.Rows.{IsGood};
ghost use Rattle.moo_tables_rows.specs.{Tables.{Tables}, Inside.{AreKeyed, Rests}};
ghost use Rattle.moo_tables.specs.{Listing.{HasTable}, Reading.{OnlyReads}};
ghost use Rattle.moo_damage.specs.Limits.{AreWithin};
ghost use Rattle.moo_cells.specs.{Shows.{ShowsRows}, Holding.{KeepsTable}, Taken.{TakesTable, TakesTables}};

use crate::filling::Filling;
use crate::head::read_head;
use crate::read_row::{ReadRow, read_table};
use crate::rows::head_alone;
use moo_damage::damage_of;
use moo_memory::Flat;
use moo_rows::{ObjRow, PetitionRow, PropRow, SlotRow, VerbRow};
use moo_tables::{CellTable, Version, are_numbered, feed_table, small_cells_of};
use sqlite::{Alter, Connection, Error, Row};
use std::alloc::Global;

/// Reads a table, and puts what each of its rows shows into the maps, which have none of them yet. None if some row shows no row within its
/// limits, or if memory ran out. A fault only if the store fails, or it takes more steps than the connection allows.
#[tactic(auto, using(moo_tables::proofs::ReadLemmas::hands_on, moo_tables::proofs::ReadLemmas::answers, moo_tables::proofs::ReadLemmas::read_then))]
fn take_table<R: ReadRow, S: Alter>(
    alloc: Global,
    conn: &mut Connection<S>,
    version: Version,
    table: CellTable,
    rows: Flat,
) -> Result<Option<Flat>, Error>
    // The version has this table.
    requires { HasTable version table }
    // Nothing is written, and it fails only if the store does, or if it takes more steps than the connection allows.
    ensures reads { OnlyReads version (state S.Store conn.old) (state S.Store conn.new) result }
    // If the kind of rows has the laws of `KeepsTable` and its map is empty, the map has then just what the rows of the table show, and the
    // other maps stay.
    ensures taken { KeepsTable R.order (R.reads version) R.apart R.in_order (R.holds version) (R.unread version) R.whole R.tells →
        R.map_of rows.maps ≡ empty → IfOk result (λ o. IfSome o (λ after. TakesTable R.map_of R.with_map R.apart (R.holds version)
        (R.reads version) table version (state S.Store conn.old) (state S.Store conn.new) rows.maps after.maps)) }
{
    let mut filling = Filling::<R>::new(alloc, version, rows);
    let whole = feed_table(alloc, conn, version, table, &mut filling)?;
    Ok(filling.into_rows(whole))
}

/// Reads the tables of objects, properties, slots and verbs, one after another, and puts their rows into maps that have a head alone.
/// None if some row shows no row within its limits, or if memory ran out.
#[tactic(auto, using(moo_tables::proofs::ReadLemmas::hands_on, moo_tables::proofs::ReadLemmas::answers, moo_tables::proofs::ReadLemmas::read_then))]
fn take_tables<S: Alter>(
    alloc: Global,
    conn: &mut Connection<S>,
    version: Version,
    rows: Flat,
) -> Result<Option<Flat>, Error>
    // The maps have a head alone.
    requires { rows.maps ≡ record no_maps { head = rows.maps.head } }
    // Nothing is written, and it fails only if the store does, or if it takes more steps than the connection allows.
    ensures reads { OnlyReads version (state S.Store conn.old) (state S.Store conn.new) result }
    // Each map has just what the rows of its table show, and the head and the petitions stay.
    ensures taken { IfOk result (λ o. IfSome o (λ after.
        TakesTables version (state S.Store conn.old) (state S.Store conn.new) rows.maps after.maps)) }
{
    let objects = take_table::<ObjRow, S>(alloc, conn, version, CellTable::Object, rows)?;
    let Some(one) = objects else {
        return Ok(None);
    };
    let props = take_table::<PropRow, S>(alloc, conn, version, CellTable::Prop, one)?;
    let Some(two) = props else {
        return Ok(None);
    };
    let slots = take_table::<SlotRow, S>(alloc, conn, version, CellTable::Slot, two)?;
    let Some(three) = slots else {
        return Ok(None);
    };
    let verbs = take_table::<VerbRow, S>(alloc, conn, version, CellTable::Verb, three)?;
    Ok(verbs)
}

/// Whether the first column of each of three tables, as of the three small ones, is a whole number that rises from row to row.
pub(crate) fn are_each_numbered(one: &[Row], two: &[Row], three: &[Row]) -> bool
    // If the answer is true, the keys of each table are whole numbers that rise.
    ensures one { result ≡ true → AreKeyed one.now }
    ensures two { result ≡ true → AreKeyed two.now }
    ensures three { result ≡ true → AreKeyed three.now }
{
    are_numbered(one) && are_numbered(two) && are_numbered(three)
}

/// Reads all tables: the rows within their limits that they show. None if they show no such rows, or if memory ran out.
#[tactic(auto, using(moo_tables::proofs::ReadLemmas::hands_on, moo_tables::proofs::ReadLemmas::answers, moo_tables::proofs::ReadLemmas::read_then))]
fn take_rows<S: Alter>(
    alloc: Global,
    conn: &mut Connection<S>,
    version: Version,
) -> Result<Option<Flat>, Error>
    // Nothing is written, and it fails only if the store does, or if it takes more steps than the connection allows.
    ensures reads { OnlyReads version (state S.Store conn.old) (state S.Store conn.new) result }
    // The tables show the rows that are read.
    ensures shown { HasCleanDisk (state S.Store conn.new) → IfOk result (λ o. IfSome o (λ rows. (tables : Tables) →
        Rests (state S.Store conn.old) tables → tables.version ≡ version → ShowsRows tables rows.maps)) }
    ensures within { IfOk result (λ o. IfSome o (λ rows. AreWithin rows.maps)) }
    ensures limit { IfOk result (λ o. IfSome o (λ rows. rows.maps.head.seq < 2 ^ 63)) }
{
    let (head, petition, petition_head) = small_cells_of(alloc, conn, version)?;
    if !are_each_numbered(&head, &petition, &petition_head) {
        return Ok(None);
    }
    let Ok(first) = read_head(version, &head, &petition_head) else {
        return Ok(None);
    };
    let all = take_tables(alloc, conn, version, head_alone(alloc, first))?;
    let Some(mut rows) = all else {
        return Ok(None);
    };
    match read_table::<PetitionRow>(alloc, version, petition, &mut rows) {
        Ok(()) => Ok(Some(rows)),
        Err(_) => Ok(None),
    }
}

/// The rows that the tables of a connection show, if they are those of a world; None if they show no world, or if memory ran out.
///
/// Nothing is written. If the tables are of the version, it fails only if the store does, or if it takes more steps than the connection
/// allows. After a fault of the store the tables are as they were, unless the fault shut the connection.
#[tactic(auto, using(moo_tables::proofs::ReadLemmas::hands_on, moo_tables::proofs::ReadLemmas::answers, moo_tables::proofs::ReadLemmas::read_then))]
pub fn read_in_turn<S: Alter>(
    alloc: Global,
    conn: &mut Connection<S>,
    version: Version,
) -> Result<Option<Flat>, Error>
    // Nothing is written, and it fails only if the store does, or if it takes more steps than the connection allows.
    ensures reads { OnlyReads version (state S.Store conn.old) (state S.Store conn.new) result }
    // If the disk returned what was written, and the connection had tables of this version at rest, they show the rows that are read.
    ensures shown { HasCleanDisk (state S.Store conn.new) → IfOk result (λ o. IfSome o (λ rows. (tables : Tables) →
        Rests (state S.Store conn.old) tables → tables.version ≡ version → ShowsRows tables rows.maps)) }
    // The rows that are read are good, whatever the tables hold.
    ensures good { IfOk result (λ o. IfSome o (λ rows. IsGood rows.maps)) }
    // The number of the last batch is that of a cell, and so is below 2^63.
    ensures limit { IfOk result (λ o. IfSome o (λ rows. rows.maps.head.seq < 2 ^ 63)) }
    // If the tables show good rows, those are the rows that are read.
    ensures one { HasCleanDisk (state S.Store conn.new) → IfOk result (λ o. IfSome o (λ rows. (tables : Tables) (m : Maps) →
        Rests (state S.Store conn.old) tables → tables.version ≡ version → ShowsRows tables m → IsGood m → rows.maps ≡ m)) }
{
    let taken = take_rows(alloc, conn, version)?;
    let Some(rows) = taken else {
        return Ok(None);
    };
    match damage_of(alloc, &rows) {
        Ok(None) => Ok(Some(rows)),
        _ => Ok(None),
    }
}
