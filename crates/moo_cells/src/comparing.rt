//! The tables, compared with rows that were known before.

ghost use Rattle.std.specs.Prelude.{◌≡◌, true, IfOk, IfErr, IfSome, IfNone};
ghost use Rattle.moo_world.specs.Rows.{IsGood};
ghost use Rattle.moo_tables_rows.specs.Inside.{AreKeyed};
ghost use Rattle.moo_tables.specs.Listing.{AreListed, tables_of};
ghost use Rattle.moo_cells.specs.{Head.{by_rowid, HoldsHead, ReadsCounter}, Shows.{ShowsRows}, Damage.{SaysOfCells}, Compared.{IsMismatch}};

use crate::cells::read_cells;
use crate::fault::CellFault;
use crate::head::read_head;
use crate::showing::show_each;
use moo_damage::{Key, first_difference};
use moo_memory::Flat;
use moo_rows::{Head, ObjRow, PetitionRow, PropRow, Rows, SlotRow, VerbRow};
use moo_tables::{CellLists, Version};
use sqlite::Row;
use std::alloc::{AllocError, Global};

/// Whether the rows of `head`, in tables of this version, and those of `petition_head` show this head. False too if they can't be read.
pub(crate) fn shows_head(version: Version, rows: &[Row], counters: &[Row], head: Head) -> bool
    // The keys of `head` are whole numbers that rise.
    requires head { AreKeyed rows.now }
    // The keys of `petition_head` are whole numbers that rise.
    requires counter { AreKeyed counters.now }
    // If the answer is true, `petition_head` has the number of the next petition of this head.
    ensures counter { result ≡ true → ReadsCounter version (by_rowid counters.now) head.next_petition }
    // If the answer is true, `head` has the other numbers of this head.
    ensures head { result ≡ true → HoldsHead version rows.now head }
{
    match read_head(version, rows, counters) {
        Ok(read) => read == head,
        Err(_) => false,
    }
}

/// Whether the tables are seen to show these rows, by comparing each row of a table with its own. The only error is a lack of memory.
fn show_rows(alloc: Global, lists: &CellLists, rows: &Flat) -> Result<bool, AllocError>
    // In each table the keys are whole numbers, and each is above the one before.
    requires { AreListed lists.now }
    // If the answer is true, the tables show these rows. Nothing is promised of false.
    ensures { IfOk result (λ show. show ≡ true → ShowsRows (tables_of lists.now) rows.now.maps) }
{
    if !shows_head(
        lists.version,
        &lists.head,
        &lists.petition_head,
        rows.head(),
    ) {
        return Ok(false);
    }
    if !show_each::<ObjRow>(alloc, lists.version, &lists.object, rows)? {
        return Ok(false);
    }
    if !show_each::<PropRow>(alloc, lists.version, &lists.prop, rows)? {
        return Ok(false);
    }
    if !show_each::<SlotRow>(alloc, lists.version, &lists.slot, rows)? {
        return Ok(false);
    }
    if !show_each::<VerbRow>(alloc, lists.version, &lists.verb, rows)? {
        return Ok(false);
    }
    show_each::<PetitionRow>(alloc, lists.version, &lists.petition, rows)
}

/// The first row in which the tables differ from the rows of a world, in the order of `first_difference`; None if they show these rows.
///
/// Errors: those of `read_cells`, if the tables show no world. The rows are first compared in place, and only if one differs are all read
/// again.
pub fn compare_cells(alloc: Global, lists: CellLists, own: &Flat) -> Result<Option<Key>, CellFault>
    // In each table the keys are whole numbers, and each is above the one before.
    requires listed { AreListed lists }
    // The given rows are those of a world.
    requires good { IsGood own.now.maps }
    // If no difference is told, the tables show the given rows.
    ensures same { IfOk result (λ o. IfNone o (ShowsRows (tables_of lists) own.now.maps)) }
    // If one is told, the tables show another world, and it is the first row in which the two differ.
    ensures differs { IfOk result (λ o. IfSome o (IsMismatch own.now.maps (tables_of lists))) }
    // A fault tells the first damage of the tables, or that they are of a later version, or that memory ran out.
    ensures fault { IfErr result (SaysOfCells (tables_of lists)) }
    // If the tables show the given rows, no difference is told.
    ensures whole { ShowsRows (tables_of lists) own.now.maps → IfOk result (λ o. o ≡ None) }
    // If the tables show the given rows, the only fault is that memory ran out.
    ensures memory { ShowsRows (tables_of lists) own.now.maps → IfErr result (λ fault. fault ≡ CellFault.OutOfMemory) }
{
    let shown = show_rows(alloc, &lists, own)?;
    if shown {
        return Ok(None);
    }
    let found = read_cells(alloc, lists)?;
    Ok(first_difference(own, &found))
}
