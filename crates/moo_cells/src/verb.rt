//! The table of verbs.

ghost use Rattle.std.specs.Prelude.{IfOk, IfErr};
ghost use Rattle.moo_cells.specs.{Columns.{HasArgs}, Reading.{ReadsVerb}, Apart.{HavePairs}};
ghost use Rattle.moo_cells.specs.Holding.{verb_number, verb_key, IsPairLess, HasWholePair, HoldsEachRow, SaysUnread, TellsKey};
ghost use Rattle.moo_rows.specs.declared.row.ArgSpec.{ArgSpec};
ghost use Rattle.moo_tables.specs.Listing.{has_key_pair, ArePaired};

use crate::cell::{id_at, int_in, object_at, object_spec_at, prep_at, string_at, verb_bits_at};
use crate::fault::RowFault;
use crate::read_row::ReadRow;
use moo_damage::Key;
use moo_rows::{ArgSpec, VerbId, VerbRow};
use moo_tables::Version;
use moo_value::ObjNo;
use moo_verbs::check_names;
use sqlite::Row;
use std::alloc::Global;

/// How many columns the table of verbs has.
const COLUMNS: usize = 8;

/// The arguments in the cells of a verb: direct object, preposition, indirect object. `Unreadable` if a cell has none of the allowed words.
fn args_of(cells: &Row) -> Result<ArgSpec, RowFault>
    ensures ok { IfOk result (λ args. HasArgs cells.now args) }
    ensures err { IfErr result (λ _. (args : ArgSpec) → ¬ (HasArgs cells.now args)) }
{
    let dobj = object_spec_at(cells, 5)?;
    let prep = prep_at(cells, 6)?;
    let iobj = object_spec_at(cells, 7)?;
    Ok(ArgSpec { dobj, prep, iobj })
}

impl ReadRow for VerbRow {
    ghost reads = { ReadsVerb };

    ghost apart = { HavePairs };

    ghost in_order = { ArePaired };

    ghost holds = { λ version. HoldsEachRow has_key_pair verb_number (ReadsVerb version) };

    ghost unread = { λ version. SaysUnread has_key_pair (ReadsVerb version) IsPairLess verb_key };

    ghost whole = { HasWholePair };

    ghost tells = { TellsKey has_key_pair verb_key };

    fn read(
        alloc: Global,
        version: Version,
        cells: &Row,
    ) -> Result<((ObjNo, VerbId), VerbRow), RowFault> {
        if cells.column_count() != COLUMNS {
            return Err(RowFault::Unreadable);
        }
        let object = object_at(cells, 0)?;
        let id = id_at(cells, 1)?;
        let owner = object_at(cells, 3)?;
        let bits = verb_bits_at(cells, 4)?;
        let args = args_of(cells)?;
        let names = string_at(alloc, cells, 2)?;
        if check_names(&names).is_err() {
            return Err(RowFault::Unreadable);
        }
        Ok((
            (object, VerbId(id)),
            VerbRow {
                names,
                owner,
                bits,
                args,
            },
        ))
    }

    fn key_of(cells: &Row) -> Key {
        Key::Verb(int_in(cells, 0), int_in(cells, 1))
    }
}
