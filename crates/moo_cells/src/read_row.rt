//! What a table asks of the rows of its kind.

ghost use Rattle.std.specs.{Prelude.{◌≡◌, List, Option, IfOk, IfErr, OnOk}, FinMap.{empty, get}};
ghost use Rattle.sqlite.specs.Order.{Row as Cells};
ghost use Rattle.moo_tables_rows.specs.declared.version.Version.{Version};
ghost use Rattle.moo_damage.specs.declared.kind.Key.{Key};
ghost use Rattle.moo_cells.specs.{Reading.{IsRead}, Holding.{KeepsTable, TakesRow}, declared.fault.CellFault.{CellFault}};
ghost use Rattle.moo_cells.specs.declared.fault.RowFault.TheVariants.{Unreadable};

use crate::fault::{CellFault, RowFault};
use crate::spent_cells::SpentCells;
use moo_damage::{Key, Kind};
use moo_memory::Flat;
use moo_rows::KeyedRow;
use moo_tables::Version;
use sqlite::Row;
use std::alloc::Global;

/// A row that the cells of a table show.
pub(crate) trait ReadRow: KeyedRow {
    /// Whether cells of tables of a version show a row of a key.
    ghost reads: { Version → Self.Key → Cells → Self → Type 0 };

    /// No two of these rows have one key.
    ghost apart: { List Cells → Type 0 };

    /// These rows are in the order of their keys.
    ghost in_order: { List Cells → Type 0 };

    /// At each key is just what these rows, of tables of a version, show there.
    ghost holds: { Version → List Cells → (Self.Key → Option Self) → Type 0 };

    /// The fault is that of the first of these rows that can't be read.
    ghost unread: { Version → List Cells → CellFault → Type 0 };

    /// The cells of the key are whole numbers.
    ghost whole: { Cells → Type 0 };

    /// The key is that of these cells.
    ghost tells: { Cells → Key → Type 0 };

    /// The row that these cells show, and its key.
    ///
    /// Errors: `Unreadable` if they show no row within its limits, and `OutOfMemory`.
    fn read(alloc: Global, version: Version, cells: &Row) -> Result<(Self::Key, Self), RowFault>
        ensures ok { IfOk result (λ r. reads version r.0 cells.now r.1) }
        // If the fault is `Unreadable`, the cells show no row within its limits.
        ensures err { IfErr result (λ fault. fault ≡ Unreadable → ¬ (IsRead (reads version) cells.now)) };

    /// The key that cells have, whether or not they show a row. It is told if they can't be read.
    fn key_of(cells: &Row) -> Key
        // The cells of the key are whole numbers.
        requires { whole cells.now }
        ensures { tells cells.now result };
}

/// Puts the row that these cells show into the maps. `Unreadable` if they show no row within its limits, and `OutOfMemory`.
pub(crate) fn take_row<R: ReadRow>(
    alloc: Global,
    version: Version,
    cells: &Row,
    rows: &mut Flat,
) -> Result<(), RowFault>
    // The map of its kind has the row at its key.
    ensures ok { OnOk result (TakesRow (R.reads version) cells.now (R.map_of rows.old.maps) (R.map_of rows.new.maps)) }
    // The other maps stay.
    ensures kept { OnOk result (rows.new.maps ≡ R.with_map rows.old.maps (R.map_of rows.new.maps)) }
    // If the fault is `Unreadable`, the cells show no row within its limits.
    ensures err { IfErr result (λ fault. fault ≡ Unreadable → ¬ (IsRead (R.reads version) cells.now)) }
{
    let (key, row) = R::read(alloc, version, cells)?;
    R::put(rows, key, row)?;
    Ok(())
}

/// Puts what each row of a table shows into maps that have none of its rows yet. The cells of the rows are let go soon after they are read.
/// The rows may come in any order. If they come in that of their keys, a fault names the first that can't be read.
///
/// `Damaged` with `BadCell` and the key of a row that shows none within its limits; `OutOfMemory`.
pub(crate) fn read_table<R: ReadRow>(
    alloc: Global,
    version: Version,
    cells: Vec<Row>,
    rows: &mut Flat,
) -> Result<(), CellFault>
    // The kind of rows has the laws of `KeepsTable`: how a map comes to hold what the rows of a table show.
    requires keeps { KeepsTable R.order (R.reads version) R.apart R.in_order (R.holds version) (R.unread version) R.whole R.tells }
    // No two rows have one key.
    requires apart { R.apart cells.items }
    // The map of the kind is empty.
    requires none { R.map_of rows.old.maps ≡ empty }
    // The map has at each key what the rows show of it, and nothing else.
    ensures holds { OnOk result (R.holds version cells.items (get (R.map_of rows.new.maps))) }
    // The other maps stay.
    ensures kept { OnOk result (rows.new.maps ≡ R.with_map rows.old.maps (R.map_of rows.new.maps)) }
    // If the rows are in the order of their keys, the fault names the first that can't be read.
    ensures fault { IfErr result (λ fault. R.in_order cells.items → R.unread version cells.items fault) }
{
    let mut spent = SpentCells::new(alloc);
    for row in cells {
        match take_row::<R>(alloc, version, &row, rows) {
            Ok(()) => {}
            Err(RowFault::Unreadable) => {
                return Err(CellFault::Damaged(Kind::BadCell, R::key_of(&row)));
            }
            Err(RowFault::OutOfMemory) => return Err(CellFault::OutOfMemory),
        }
        spent.add(row)?;
    }
    Ok(())
}
