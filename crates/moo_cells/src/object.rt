//! The table of objects.

ghost use Rattle.std.specs.Prelude.{IfOk, IfErr};
ghost use Rattle.moo_rows.specs.declared.row.ObjRow.{ObjRow};
ghost use Rattle.moo_cells.specs.{Object.{HasFlags}, Reading.{ReadsObject}, Apart.{HaveNumbers}};
ghost use Rattle.moo_cells.specs.Holding.{object_number, object_key, IsLess, HasWholeNumber, HoldsEachRow, SaysUnread, TellsKey};
ghost use Rattle.sqlite.specs.Tree.{has_rowid};
ghost use Rattle.moo_tables_rows.specs.Inside.{AreKeyed};

use crate::cell::{flag_at, int_in, object_at, string_at};
use crate::fault::RowFault;
use crate::literal::accept_at;
use crate::read_row::ReadRow;
use moo_damage::Key;
use moo_rows::ObjRow;
use moo_tables::Version;
use moo_value::{MooStr, ObjNo};
use sqlite::Row;
use std::alloc::Global;

/// How many columns the table of objects has. The last one is the accept list's.
const COLUMNS: usize = 12;

/// The number that stands for no object.
const NOTHING: ObjNo = ObjNo(-1);

/// The row of an object with the flags of these cells (player, programmer, wizard, r, w, f), and nothing else yet. `Unreadable` if one of
/// the cells is neither 0 nor 1.
fn flags_of(alloc: Global, cells: &Row) -> Result<ObjRow, RowFault>
    ensures ok { IfOk result (λ row. HasFlags cells.now row) }
    ensures err { IfErr result (λ _. (row : ObjRow) → ¬ (HasFlags cells.now row)) }
{
    Ok(ObjRow {
        player: flag_at(cells, 5)?,
        programmer: flag_at(cells, 6)?,
        wizard: flag_at(cells, 7)?,
        r: flag_at(cells, 8)?,
        w: flag_at(cells, 9)?,
        f: flag_at(cells, 10)?,
        name: MooStr::from_vec(Vec::new(alloc)),
        owner: NOTHING,
        parent: NOTHING,
        location: NOTHING,
        accept: None,
    })
}

impl ReadRow for ObjRow {
    ghost reads = { ReadsObject };

    ghost apart = { HaveNumbers };

    ghost in_order = { AreKeyed };

    ghost holds = { λ version. HoldsEachRow has_rowid object_number (ReadsObject version) };

    ghost unread = { λ version. SaysUnread has_rowid (ReadsObject version) IsLess object_key };

    ghost whole = { HasWholeNumber };

    ghost tells = { TellsKey has_rowid object_key };

    fn read(alloc: Global, version: Version, cells: &Row) -> Result<(ObjNo, ObjRow), RowFault> {
        if cells.column_count() != COLUMNS {
            return Err(RowFault::Unreadable);
        }
        let number = object_at(cells, 0)?;
        let owner = object_at(cells, 2)?;
        let parent = object_at(cells, 3)?;
        let location = object_at(cells, 4)?;
        let flags = flags_of(alloc, cells)?;
        let name = string_at(alloc, cells, 1)?;
        let accept = accept_at(alloc, cells, COLUMNS - 1)?;
        let row = ObjRow {
            name,
            owner,
            parent,
            location,
            accept,
            ..flags
        };
        Ok((number, row))
    }

    fn key_of(cells: &Row) -> Key {
        Key::Object(int_in(cells, 0))
    }
}
