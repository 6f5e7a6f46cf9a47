//! The rows of all tables.

ghost use Rattle.std.specs.Prelude.{◌≡◌, ◌<◌, ◌^◌, IfOk, IfErr, OnOk};
ghost use Rattle.moo_rows.specs.Maps.{no_maps};
ghost use Rattle.moo_tables.specs.Listing.{AreListed, tables_of};
ghost use Rattle.moo_damage.specs.{Kinds.{NoneBefore}, Limits.{AreWithin}};
ghost use Rattle.moo_cells.specs.{Head.{by_rowid, HoldsHead, ReadsCounter}, Shows.{ShowsRows}, Damage.{IsMet, IsNewer, SaysOfCells}};

use crate::fault::CellFault;
use crate::head::read_head;
use crate::read_row::read_table;
use moo_memory::Flat;
use moo_rows::{Head, ObjRow, PetitionRow, PropRow, Rows, SlotRow, VerbRow};
use moo_tables::CellLists;
use std::alloc::Global;

/// Rows that have this head and nothing else.
pub(crate) fn head_alone(alloc: Global, head: Head) -> Flat
    ensures { result.maps ≡ record no_maps { head = head } }
{
    let mut rows = Flat::new(alloc);
    rows.set_head(head);
    rows
}

/// Puts what each table shows, one after another, into rows that have a head alone. The cells of the rows are let go soon after they are
/// read. `Damaged` with `BadCell` and the least key of a row that shows none within its limits; `OutOfMemory`.
#[tactic(auto, using(crate::proofs::FillLemmas::keeps_each))]
fn read_tables(alloc: Global, lists: CellLists, rows: &mut Flat) -> Result<(), CellFault>
    // In each table the keys are whole numbers, and each is above the one before.
    requires listed { AreListed lists }
    // The head of the rows is that of the tables.
    requires head { HoldsHead lists.version lists.head.items rows.old.maps.head }
    // So is its number of the next petition.
    requires counter { ReadsCounter lists.version (by_rowid lists.petition_head.items) rows.old.maps.head.next_petition }
    // The rows have a head alone.
    requires none { rows.old.maps ≡ record no_maps { head = rows.old.maps.head } }
    ensures head { OnOk result (rows.new.maps.head ≡ rows.old.maps.head) }
    // The tables show the rows that are read.
    ensures shown { OnOk result (ShowsRows (tables_of lists) rows.new.maps) }
    // Each row is within its limits.
    ensures within { OnOk result (AreWithin rows.new.maps) }
    // The tables aren't of a later version, and neither a bad head nor a bad cell is met.
    ensures read { OnOk result (¬ (IsNewer (tables_of lists)) × NoneBefore (IsMet (tables_of lists)) 3) }
    // A fault tells the first damage of the tables, or that they are of a later version, or that memory ran out.
    ensures fault { IfErr result (SaysOfCells (tables_of lists)) }
{
    let CellLists {
        version,
        object,
        prop,
        slot,
        verb,
        petition,
        ..
    } = lists;
    read_table::<ObjRow>(alloc, version, object, rows)?;
    read_table::<PropRow>(alloc, version, prop, rows)?;
    read_table::<SlotRow>(alloc, version, slot, rows)?;
    read_table::<VerbRow>(alloc, version, verb, rows)?;
    read_table::<PetitionRow>(alloc, version, petition, rows)
}

/// The rows that the tables show, within their limits; whether they are those of a world isn't tested.
///
/// Errors: `Damaged` with `BadHead` or `BadCell`, the first of the two that is met, and its least key; `NewerVersion`; `OutOfMemory`.
pub fn read_rows(alloc: Global, lists: CellLists) -> Result<Flat, CellFault>
    // In each table the keys are whole numbers, and each is above the one before.
    requires { AreListed lists }
    // The tables show the rows that are read.
    ensures shown { IfOk result (λ rows. ShowsRows (tables_of lists) rows.maps) }
    // Each row is within its limits.
    ensures within { IfOk result (λ rows. AreWithin rows.maps) }
    // The number of the last batch is that of a cell, and so is below 2^63.
    ensures limit { IfOk result (λ rows. rows.maps.head.seq < 2 ^ 63) }
    // The tables aren't of a later version, and neither a bad head nor a bad cell is met.
    ensures read { OnOk result (¬ (IsNewer (tables_of lists)) × NoneBefore (IsMet (tables_of lists)) 3) }
    // A fault tells the first damage of the tables, or that they are of a later version, or that memory ran out.
    ensures fault { IfErr result (SaysOfCells (tables_of lists)) }
{
    let head = read_head(lists.version, &lists.head, &lists.petition_head)?;
    let mut rows = head_alone(alloc, head);
    match read_tables(alloc, lists, &mut rows) {
        Ok(()) => Ok(rows),
        Err(fault) => Err(fault),
    }
}
