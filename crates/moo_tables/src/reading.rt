//! The rows of the tables, each table's in the order of its keys.

ghost use Rattle.std.specs.Prelude.{◌≡◌, ◌++◌, IfOk};
ghost use Rattle.sqlite.specs.Held.{state};
ghost use Rattle.moo_tables.specs.{Listing.{HasTable, ListsTable, ListsNumbers, ListsTables}, Reading.{Lists, OnlyReads}};

use crate::cell_table::CellTable;
use crate::feeding::{TakeRows, feed_table};
use moo_tables_rows::Version;
use sqlite::{Alter, Connection, Error, ErrorCode, Row};
use std::alloc::Global;

/// The rows of each table, each key once, in the order of the keys.
#[derive(Drop)]
pub struct CellLists {
    /// The version of the tables that have these rows.
    pub version: Version,
    pub head: Vec<Row>,
    pub object: Vec<Row>,
    pub prop: Vec<Row>,
    pub slot: Vec<Row>,
    pub verb: Vec<Row>,
    /// No row if the version has no petitions.
    pub petition: Vec<Row>,
    /// The row with the number of the next petition; no row if the version has no petitions.
    pub petition_head: Vec<Row>,
}

/// A taker that keeps all rows that are handed on to it, in one list.
#[derive(Drop)]
struct Listed {
    rows: Vec<Row>,
}

impl TakeRows for Listed {
    ghost took = { λ first rows now. now.rows.items ≡ first.rows.items ++ rows };

    fn take(&mut self, mut block: Vec<Row>) -> bool {
        self.rows.append(&mut block).is_ok()
    }
}

/// Reads a table: its rows, in the order of their keys.
///
/// Nothing is written. After a fault of the store the tables are as they were, unless the fault shut the connection. If the tables are of
/// the version, it fails only if the store does, if memory runs out, or if it takes more steps than the connection allows.
#[tactic(auto, using(crate::proofs::ReadLemmas::hands_on, crate::proofs::ReadLemmas::answers, crate::proofs::ReadLemmas::ran_out))]
pub fn cells_of<S: Alter>(
    alloc: Global,
    conn: &mut Connection<S>,
    version: Version,
    table: CellTable,
) -> Result<Vec<Row>, Error>
    // The version has this table: one without petitions has no table of them.
    requires { HasTable version table }
    // Nothing is written. If the disk is clean and the tables are of the version, it fails only if the store does or memory runs out, or if
    // it takes more steps than the connection allows.
    ensures reads { OnlyReads version (state S.Store conn.old) (state S.Store conn.new) result }
    // If the disk is clean and the connection has tables of the version at rest, the rows are the table's, in the order of their keys.
    ensures listed { Lists version (state S.Store conn.old) (state S.Store conn.new) result
        (λ rows tables. ListsTable table rows.items tables) }
{
    let mut listed = Listed {
        rows: Vec::new(alloc),
    };
    let whole = feed_table(alloc, conn, version, table, &mut listed)?;
    if !whole {
        return Err(Error::SqliteFailure(ErrorCode::OutOfMemory));
    }
    Ok(listed.rows)
}

/// Reads the three small tables: the rows of `head`, of `petition` and of `petition_head`. If the version has no petitions, the last two
/// lists are empty, and the store isn't asked for them. It fails as `cells_of` does.
#[tactic(auto, using(crate::proofs::ReadLemmas::hands_on, crate::proofs::ReadLemmas::answers, crate::proofs::ReadLemmas::read_then))]
pub fn small_cells_of<S: Alter>(
    alloc: Global,
    conn: &mut Connection<S>,
    version: Version,
) -> Result<(Vec<Row>, Vec<Row>, Vec<Row>), Error>
    // Nothing is written, and it fails only if the store does, or if it takes more steps than the connection allows.
    ensures reads { OnlyReads version (state S.Store conn.old) (state S.Store conn.new) result }
    // The three lists are the rows of the three tables, in the order of their keys.
    ensures listed { Lists version (state S.Store conn.old) (state S.Store conn.new) result
        (λ lists tables. ListsNumbers lists.0.items tables.head × ListsNumbers lists.1.items tables.petition
        × ListsNumbers lists.2.items tables.petition_head) }
{
    let head = cells_of(alloc, conn, version, CellTable::Head)?;
    if !version.has_petitions() {
        return Ok((head, Vec::new(alloc), Vec::new(alloc)));
    }
    let petition = cells_of(alloc, conn, version, CellTable::Petition)?;
    let petition_head = cells_of(alloc, conn, version, CellTable::PetitionHead)?;
    Ok((head, petition, petition_head))
}

/// Reads the rows of each table of the version. If it has no petitions, their two lists are empty.
///
/// The version has to be that of the database (`version_of`): of another one nothing is said. Nothing is written. It fails
/// only if the store does, or if it takes more steps than the connection allows. After a fault of the store the tables are as
/// they were, unless the fault shut the connection.
#[tactic(auto, using(crate::proofs::ReadLemmas::hands_on, crate::proofs::ReadLemmas::answers, crate::proofs::ReadLemmas::read_then))]
pub fn read_tables<S: Alter>(
    alloc: Global,
    conn: &mut Connection<S>,
    version: Version,
) -> Result<CellLists, Error>
    // Nothing is written, and it fails only if the store does, or if it takes more steps than the connection allows.
    ensures reads { OnlyReads version (state S.Store conn.old) (state S.Store conn.new) result }
    // The lists are those of the version.
    ensures version { IfOk result (λ lists. lists.version ≡ version) }
    // Each list is the rows of its table, in the order of the keys.
    ensures listed { Lists version (state S.Store conn.old) (state S.Store conn.new) result ListsTables }
{
    let (head, petition, petition_head) = small_cells_of(alloc, conn, version)?;
    let object = cells_of(alloc, conn, version, CellTable::Object)?;
    let prop = cells_of(alloc, conn, version, CellTable::Prop)?;
    let slot = cells_of(alloc, conn, version, CellTable::Slot)?;
    let verb = cells_of(alloc, conn, version, CellTable::Verb)?;
    Ok(CellLists {
        version,
        head,
        object,
        prop,
        slot,
        verb,
        petition,
        petition_head,
    })
}
