//! The tables of a connection, compared with rows that were known before, one table after another: only the cells of one table are held
//! at a time.
//!
//! Where they differ isn't told here. Whoever wants to know it reads them all (`read_tables` of `moo_tables`, `compare_cells`).

ghost use Rattle.std.specs.{Prelude.{◌≡◌, IfOk, true}, FinMap.{entries}};
ghost use Rattle.sqlite.specs.{Held.{state}, State.{HasCleanDisk}};
ghost use Rattle.moo_tables_rows.specs.{Tables.{Tables}, Inside.{Rests}};
ghost use Rattle.moo_tables.specs.{Listing.{HasTable}, Reading.{OnlyReads}};
ghost use Rattle.moo_cells.specs.{Each.{ShowEach}, Holding.{KeepsTable}, Shows.{ShowsRows}, Taken.{TakesTable, TakesTables}};

use crate::comparing::shows_head;
use crate::in_turn::are_each_numbered;
use crate::read_row::ReadRow;
use crate::showing::show_each;
use moo_memory::Flat;
use moo_rows::{ObjRow, PetitionRow, PropRow, Rows, SlotRow, VerbRow};
use moo_tables::{CellTable, Version, cells_of, small_cells_of};
use sqlite::{Alter, Connection, Error, Row};
use std::alloc::Global;

/// Whether the rows of a table of this version are seen to show all rows of their kind, one for one. False too if memory ran out.
fn are_shown<R: ReadRow>(alloc: Global, version: Version, cells: &[Row], rows: &Flat) -> bool
    // If the answer is true, the first row shows the first entry of the map, and so on, and none is left over on either side.
    ensures { result ≡ true → ShowEach (R.reads version) cells.now (entries (R.map_of rows.now.maps)) }
{
    match show_each::<R>(alloc, version, cells, rows) {
        Ok(show) => show,
        Err(_) => false,
    }
}

/// Reads a table of a connection. Whether its rows are seen to show all rows of their kind, one for one; false too if memory ran out.
#[tactic(auto, using(moo_tables::proofs::ReadLemmas::hands_on, moo_tables::proofs::ReadLemmas::answers, moo_tables::proofs::ReadLemmas::read_then))]
fn show_table<R: ReadRow, S: Alter>(
    alloc: Global,
    conn: &mut Connection<S>,
    version: Version,
    table: CellTable,
    rows: &Flat,
) -> Result<bool, Error>
    // The version has this table.
    requires { HasTable version table }
    // Nothing is written, and it fails only if the store does, or if it takes more steps than the connection allows.
    ensures reads { OnlyReads version (state S.Store conn.old) (state S.Store conn.new) result }
    // If the kind of rows has the laws of `KeepsTable` and the answer is true, reading the table would give just the given rows of the
    // kind.
    ensures shown { KeepsTable R.order (R.reads version) R.apart R.in_order (R.holds version) (R.unread version) R.whole R.tells →
        IfOk result (λ show. show ≡ true → TakesTable R.map_of R.with_map R.apart (R.holds version) (R.reads version)
        table version (state S.Store conn.old) (state S.Store conn.new) rows.now.maps rows.now.maps) }
{
    let cells = cells_of(alloc, conn, version, table)?;
    Ok(are_shown::<R>(alloc, version, &cells, rows))
}

/// Reads the tables of objects, properties, slots and verbs, one after another. Whether each is seen to show all rows of its kind, one
/// for one; false too if memory ran out.
#[tactic(auto, using(moo_tables::proofs::ReadLemmas::hands_on, moo_tables::proofs::ReadLemmas::answers, moo_tables::proofs::ReadLemmas::read_then))]
fn show_tables<S: Alter>(
    alloc: Global,
    conn: &mut Connection<S>,
    version: Version,
    rows: &Flat,
) -> Result<bool, Error>
    // Nothing is written, and it fails only if the store does, or if it takes more steps than the connection allows.
    ensures reads { OnlyReads version (state S.Store conn.old) (state S.Store conn.new) result }
    // If the answer is true, reading the four tables would give just the given rows.
    ensures shown { IfOk result (λ show. show ≡ true →
        TakesTables version (state S.Store conn.old) (state S.Store conn.new) rows.now.maps rows.now.maps) }
{
    let objects = show_table::<ObjRow, S>(alloc, conn, version, CellTable::Object, rows)?;
    if !objects {
        return Ok(false);
    }
    let props = show_table::<PropRow, S>(alloc, conn, version, CellTable::Prop, rows)?;
    if !props {
        return Ok(false);
    }
    let slots = show_table::<SlotRow, S>(alloc, conn, version, CellTable::Slot, rows)?;
    if !slots {
        return Ok(false);
    }
    let verbs = show_table::<VerbRow, S>(alloc, conn, version, CellTable::Verb, rows)?;
    Ok(verbs)
}

/// Whether the tables of a connection are seen to show these rows; false too if memory ran out.
///
/// Nothing is written. If the tables are of the version, it fails only if the store does, or if it takes more steps than the connection
/// allows. After a fault of the store the tables are as they were, unless the fault shut the connection.
#[tactic(auto, using(moo_tables::proofs::ReadLemmas::hands_on, moo_tables::proofs::ReadLemmas::answers, moo_tables::proofs::ReadLemmas::read_then))]
pub fn show_in_turn<S: Alter>(
    alloc: Global,
    conn: &mut Connection<S>,
    version: Version,
    rows: &Flat,
) -> Result<bool, Error>
    // Nothing is written, and it fails only if the store does, or if it takes more steps than the connection allows.
    ensures reads { OnlyReads version (state S.Store conn.old) (state S.Store conn.new) result }
    // If the disk is clean, the connection is in no transaction, its tables are of this version and the answer is true, they show
    // these rows. Nothing is promised of false.
    ensures shown { HasCleanDisk (state S.Store conn.new) → IfOk result (λ show. show ≡ true → (tables : Tables) →
        Rests (state S.Store conn.old) tables → tables.version ≡ version → ShowsRows tables rows.now.maps) }
{
    let (head, petition, petition_head) = small_cells_of(alloc, conn, version)?;
    if !are_each_numbered(&head, &petition, &petition_head) {
        return Ok(false);
    }
    if !shows_head(version, &head, &petition_head, rows.head()) {
        return Ok(false);
    }
    if !are_shown::<PetitionRow>(alloc, version, &petition, rows) {
        return Ok(false);
    }
    let all = show_tables(alloc, conn, version, rows)?;
    Ok(all)
}
