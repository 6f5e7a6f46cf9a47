//! The rows of a table, handed on while they are read, so that no list of a whole table need be held.

ghost use Rattle.std.specs.Prelude.{◌≡◌, List, [], ◌∷◌, ◌++◌, IfOk, OnOk, true, false};
ghost use Rattle.sqlite.specs.{Held.{state}, Given.{IsPlain}, Listing.{understood}, Order.{Row as Cells}};
ghost use Rattle.sqlite.specs.State.{HasCleanDisk, Shown, Survives, CommitsShowing, IsUnchanged};
ghost use Rattle.moo_tables.specs.{Feeding.{AreTaken, AreFed}, Listing.{HasTable, ListsTable}, ReadCause.{HasCauseIfNotShown}};
ghost use Rattle.moo_tables.specs.Reading.{KeepsIfNotShown, OnlyReads};
ghost use Rattle.moo_tables_rows.specs.{Inside.{Rests}, Tables.{Tables}};

use crate::cell_table::CellTable;
use moo_tables_rows::Version;
use sqlite::{Alter, Connection, Error, Row};
use std::alloc::{AllocError, Global};
use std::mem;

/// How many rows are held at most before they are handed on.
pub const BLOCK: usize = 1024;

/// What takes the rows of a table, a block after another.
pub trait TakeRows {
    /// From its first state to the last it took these rows, in this order.
    ghost took: { Self → List Cells → Self → Type 0 };

    /// Takes the rows that come next, at most `BLOCK`. False if it can't, for instance if memory ran out: then no more rows are handed to
    /// it.
    fn take(&mut self, block: Vec<Row>) -> bool
        // If the answer is true, it has taken these rows after those that it took before.
        ensures { (first : Self) (rows : List Cells) → took first rows self.old → result ≡ true →
            took first (rows ++ block.items) self.new };
}

/// Adds a row to the block, and hands the block on if it is full. Answers false if the taker can't take the block. The only error is a lack
/// of memory.
fn add_row<T: TakeRows>(
    alloc: Global,
    taker: &mut T,
    block: &mut Vec<Row>,
    row: Row,
) -> Result<bool, AllocError>
    // Of the rows that were read so far, this one included, the first were taken, and the others are in the block.
    ensures { (first : T) (read : List Cells) → AreFed T.took first taker.old block.old.items read →
        IfOk result (λ taken. taken ≡ true → AreFed T.took first taker.new block.new.items (read ++ row ∷ [])) }
{
    block.push(row)?;
    if block.len() < BLOCK {
        return Ok(true);
    }
    let full = mem::replace(block, Vec::new(alloc));
    Ok(taker.take(full))
}

/// Hands all rows that a query without parameters answers on to a taker, in their order, a block after another. Answers false if the
/// taker can't take them.
///
/// `query_all` of a connection would hold all values at once. It fails only if the query does, or if memory runs out.
fn feed_rows<S: Alter, T: TakeRows>(
    alloc: Global,
    conn: &mut Connection<S>,
    sql: &str,
    taker: &mut T,
) -> Result<bool, Error>
    // A connection in no transaction is in none after it.
    ensures outside { (state S.Store conn.old).in_transaction ≡ false → (state S.Store conn.new).in_transaction ≡ false }
    // If the taker counts from here (as it is, it has taken no rows) and the answer is true, it has then taken just the query's rows.
    ensures taken { T.took taker.old [] taker.old → IfOk result (λ whole. whole ≡ true → AreTaken T.took taker.old taker.new (λ rows.
        HasCleanDisk (state S.Store conn.new) → IsPlain (understood (state S.Store conn.old).now.schema sql.now) →
        Shown sql.now [] (state S.Store conn.old) (state S.Store conn.new) rows)) }
    // A query that succeeds changes nothing.
    ensures same { HasCleanDisk (state S.Store conn.new) → IsPlain (understood (state S.Store conn.old).now.schema sql.now) →
        OnOk result (IsUnchanged (state S.Store conn.old) (state S.Store conn.new)) }
    // A query that fails changes nothing either, or the transaction was rolled back.
    ensures kept { KeepsIfNotShown sql.now (state S.Store conn.old) (state S.Store conn.new) result }
    // It fails only if the query does, or if no memory is left for its rows.
    ensures cause { HasCauseIfNotShown sql.now (state S.Store conn.old) (state S.Store conn.new) result }
    // A crash leaves what it could leave before, or what a query that is its own transaction commits.
    ensures survives { Survives (state S.Store conn.old) (state S.Store conn.new) (CommitsShowing sql.now [] (state S.Store conn.old)) }
{
    let mut block = Vec::new(alloc);
    let mut rows = conn.query(sql, &[])?;
    'rows: for _ in 0..u64::MAX {
        let Some(row) = rows.next()? else {
            return Ok(taker.take(block));
        };
        let taken = add_row(alloc, taker, &mut block, row.copy()?)?;
        if !taken {
            return Ok(false);
        }
    }
    // No table has so many rows.
    Ok(false)
}

/// Reads a table, and hands its rows on to a taker, in the order of their keys, a block after another. Answers false if the taker can't
/// take them.
///
/// Nothing is written, and after a fault the tables are as they were, unless the fault shut the connection. If the tables are of the
/// version, it fails only if the store does, or if it takes more steps than the connection allows.
pub fn feed_table<S: Alter, T: TakeRows>(
    alloc: Global,
    conn: &mut Connection<S>,
    version: Version,
    table: CellTable,
    taker: &mut T,
) -> Result<bool, Error>
    // The version has this table: one without petitions has no table of them.
    requires { HasTable version table }
    // Nothing is written, and it fails only if the store does, or if it takes more steps than the connection allows.
    ensures reads { OnlyReads version (state S.Store conn.old) (state S.Store conn.new) result }
    // If the taker counts from here (as it is, it has taken no rows) and the answer is true, it has then taken just the rows of the table,
    // in the order of their keys.
    ensures taken { T.took taker.old [] taker.old → IfOk result (λ whole. whole ≡ true → AreTaken T.took taker.old taker.new (λ rows.
        HasCleanDisk (state S.Store conn.new) → (tables : Tables) → Rests (state S.Store conn.old) tables →
        tables.version ≡ version → ListsTable table rows tables)) }
{
    feed_rows(alloc, conn, table.query(version), taker)
}
