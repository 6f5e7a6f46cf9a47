//! The table of petitions.

ghost use Rattle.moo_cells.specs.{Reading.{ReadsPetition}, Apart.{HaveNumbers}};
ghost use Rattle.moo_cells.specs.Holding.{petition_number, petition_key, IsLess, HasWholeNumber, HoldsEachRow, SaysUnread, TellsKey};
ghost use Rattle.sqlite.specs.Tree.{has_rowid};
ghost use Rattle.moo_tables_rows.specs.Inside.{AreKeyed};

use crate::cell::{id_at, int_in, object_at};
use crate::fault::RowFault;
use crate::literal::calls_at;
use crate::read_row::ReadRow;
use moo_damage::Key;
use moo_rows::{PetitionId, PetitionRow};
use moo_tables::Version;
use sqlite::Row;
use std::alloc::Global;

/// How many columns the table of petitions has.
const COLUMNS: usize = 3;

impl ReadRow for PetitionRow {
    ghost reads = { ReadsPetition };

    ghost apart = { HaveNumbers };

    ghost in_order = { AreKeyed };

    ghost holds = { λ version. HoldsEachRow has_rowid petition_number (ReadsPetition version) };

    ghost unread = { λ version. SaysUnread has_rowid (ReadsPetition version) IsLess petition_key };

    ghost whole = { HasWholeNumber };

    ghost tells = { TellsKey has_rowid petition_key };

    fn read(
        alloc: Global,
        version: Version,
        cells: &Row,
    ) -> Result<(PetitionId, PetitionRow), RowFault> {
        if cells.column_count() != COLUMNS {
            return Err(RowFault::Unreadable);
        }
        let id = id_at(cells, 0)?;
        let who = object_at(cells, 1)?;
        let calls = calls_at(alloc, cells, 2)?;
        Ok((PetitionId(id), PetitionRow { who, calls }))
    }

    fn key_of(cells: &Row) -> Key {
        Key::Petition(int_in(cells, 0))
    }
}
