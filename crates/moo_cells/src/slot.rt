//! The table of slots.

ghost use Rattle.moo_cells.specs.{Reading.{ReadsSlot}, Apart.{HavePairs}};
ghost use Rattle.moo_cells.specs.Holding.{slot_number, slot_key, IsPairLess, HasWholePair, HoldsEachRow, SaysUnread, TellsKey};
ghost use Rattle.moo_tables.specs.Listing.{has_key_pair, ArePaired};

use crate::cell::{bits_at, id_at, int_in, object_at};
use crate::fault::RowFault;
use crate::literal::state_at;
use crate::read_row::ReadRow;
use moo_damage::Key;
use moo_rows::{PropId, SlotRow};
use moo_tables::Version;
use moo_value::ObjNo;
use sqlite::Row;
use std::alloc::Global;

/// How many columns the table of slots has.
const COLUMNS: usize = 5;

impl ReadRow for SlotRow {
    ghost reads = { ReadsSlot };

    ghost apart = { HavePairs };

    ghost in_order = { ArePaired };

    ghost holds = { λ version. HoldsEachRow has_key_pair slot_number (ReadsSlot version) };

    ghost unread = { λ version. SaysUnread has_key_pair (ReadsSlot version) IsPairLess slot_key };

    ghost whole = { HasWholePair };

    ghost tells = { TellsKey has_key_pair slot_key };

    // The rights are letters or a number from 0 to 7, as the version has them.
    fn read(
        alloc: Global,
        version: Version,
        cells: &Row,
    ) -> Result<((ObjNo, PropId), SlotRow), RowFault> {
        if cells.column_count() != COLUMNS {
            return Err(RowFault::Unreadable);
        }
        let object = object_at(cells, 0)?;
        let prop = id_at(cells, 1)?;
        let owner = object_at(cells, 2)?;
        let bits = bits_at(version, cells, 3)?;
        let state = state_at(alloc, cells, 4)?;
        Ok(((object, PropId(prop)), SlotRow { owner, bits, state }))
    }

    fn key_of(cells: &Row) -> Key {
        Key::Slot(int_in(cells, 0), int_in(cells, 1))
    }
}
