//! The rows of a world, from the cells of its tables.

ghost use Rattle.std.specs.Prelude.{◌≡◌, ◌<◌, ◌^◌, IfOk, IfErr};
ghost use Rattle.moo_rows.specs.Maps.{Maps};
ghost use Rattle.moo_world.specs.Rows.{IsGood};
ghost use Rattle.moo_tables.specs.Listing.{AreListed, tables_of};
ghost use Rattle.moo_cells.specs.{Shows.{ShowsRows}, Damage.{IsMet, IsNewer, SaysOfCells}};
ghost use Rattle.moo_damage.specs.{declared.kind.Kind.{Kind}, declared.kind.Key.{Key}};

use crate::fault::CellFault;
use crate::rows::read_rows;
use moo_damage::damage_of;
use moo_memory::Flat;
use moo_tables::CellLists;
use std::alloc::Global;

/// The rows that the tables show, if they are those of a world.
///
/// Errors: `Damaged` with the first kind of damage that is met and the least key at which it is; `NewerVersion` if the
/// head is that of a later version, and then nothing else is tested; `OutOfMemory`.
pub fn read_cells(alloc: Global, lists: CellLists) -> Result<Flat, CellFault>
    // In each table the keys are whole numbers, and each is above the one before.
    requires { AreListed lists }
    // The tables show the rows that are read.
    ensures rows { IfOk result (λ rows. ShowsRows (tables_of lists) rows.maps) }
    // The rows that are read are good, whatever the tables hold.
    ensures good { IfOk result (λ rows. IsGood rows.maps) }
    // The number of the last batch is that of a cell, and so is below 2^63.
    ensures limit { IfOk result (λ rows. rows.maps.head.seq < 2 ^ 63) }
    // If the tables show good rows, those are the rows that are read.
    ensures one { (m : Maps) → ShowsRows (tables_of lists) m → IsGood m → IfOk result (λ rows. rows.maps ≡ m) }
    // A fault tells the first kind of damage that is met, with its least key; or that the head is of a later version; or that memory ran
    // out.
    ensures fault { IfErr result (SaysOfCells (tables_of lists)) }
    // Tables that show good rows are read, unless memory runs out.
    ensures whole { (m : Maps) → ShowsRows (tables_of lists) m → IsGood m → IfErr result (λ fault. fault ≡ CellFault.OutOfMemory) }
    // Tables that aren't of a later version, and in which no kind of damage is met, are read too, unless memory runs out.
    ensures undamaged { ¬ (IsNewer (tables_of lists)) → ((kind : Kind) (key : Key) → ¬ (IsMet (tables_of lists) kind key)) →
        IfErr result (λ fault. fault ≡ CellFault.OutOfMemory) }
{
    let rows = read_rows(alloc, lists)?;
    let damage = damage_of(alloc, &rows)?;
    match damage {
        Some((kind, key)) => Err(CellFault::Damaged(kind, key)),
        None => Ok(rows),
    }
}
