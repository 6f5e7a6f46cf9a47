//! The table of properties.

ghost use Rattle.std.specs.Prelude.{◌≡◌};
ghost use Rattle.moo_world.specs.World.{is_property_name};
ghost use Rattle.moo_cells.specs.{Reading.{ReadsProp}, Apart.{HaveNumbers}};
ghost use Rattle.moo_cells.specs.Holding.{prop_number, prop_key, IsLess, HasWholeNumber, HoldsEachRow, SaysUnread, TellsKey};
ghost use Rattle.sqlite.specs.Tree.{has_rowid};
ghost use Rattle.moo_tables_rows.specs.Inside.{AreKeyed};

use crate::cell::{id_at, int_in, object_at, string_at};
use crate::fault::RowFault;
use crate::read_row::ReadRow;
use moo_damage::Key;
use moo_rows::{PropId, PropRow};
use moo_tables::Version;
use moo_value::MooStr;
use moo_world::{BuiltIn, MAX_NAME};
use sqlite::Row;
use std::alloc::Global;

/// How many columns the table of properties has.
const COLUMNS: usize = 3;

/// Whether a property may have the name: 1 to 255 bytes, and not built in.
fn is_property_name(name: &MooStr) -> bool
    ensures { result ≡ is_property_name name.now }
{
    let length = name.bytes().len();
    0 < length && length <= MAX_NAME && BuiltIn::of_name(name).is_none()
}

impl ReadRow for PropRow {
    ghost reads = { ReadsProp };

    ghost apart = { HaveNumbers };

    ghost in_order = { AreKeyed };

    ghost holds = { λ version. HoldsEachRow has_rowid prop_number (ReadsProp version) };

    ghost unread = { λ version. SaysUnread has_rowid (ReadsProp version) IsLess prop_key };

    ghost whole = { HasWholeNumber };

    ghost tells = { TellsKey has_rowid prop_key };

    fn read(alloc: Global, version: Version, cells: &Row) -> Result<(PropId, PropRow), RowFault> {
        if cells.column_count() != COLUMNS {
            return Err(RowFault::Unreadable);
        }
        let id = id_at(cells, 0)?;
        let definer = object_at(cells, 1)?;
        let name = string_at(alloc, cells, 2)?;
        if !is_property_name(&name) {
            return Err(RowFault::Unreadable);
        }
        Ok((PropId(id), PropRow { definer, name }))
    }

    fn key_of(cells: &Row) -> Key {
        Key::Prop(int_in(cells, 0))
    }
}
