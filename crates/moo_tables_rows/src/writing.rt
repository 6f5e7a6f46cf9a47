//! A change of the rows of one table, whichever it is.

ghost use Rattle.std.specs.Prelude.{◌≡◌, Some, OnOk};
ghost use Rattle.moo_tables_rows.specs.{Cells.{with_each}, Cause.{HasCauseIn}, Inside.{StaysInside, Changes}};

use crate::statement::{Run, is_conflict};
use crate::table_row::TableRow;
use sqlite::Error;

/// Puts a new row. If a row has its key after all, the new one takes its place. Answers whether a row had the key.
///
/// A plain insertion looks the key up once, and one that may write over a row looks it up twice. It fails only by what stops any change.
fn write_new<T: Run, R: TableRow>(tx: &mut T, key: R::Key, row: &R) -> Result<bool, Error>
    // The transaction is on the connection that it was on.
    ensures same_reference { T.lender tx.new ≡ T.lender tx.old }
    // Nothing is committed: a crash leaves what it could leave before.
    ensures inside { StaysInside (T.state tx.old) (T.state tx.new) }
    // If it succeeds, the tables have this row at its key, and change nowhere else.
    ensures written { OnOk result (Changes (R.with_row key (Some row.now)) (T.state tx.old) (T.state tx.new)) }
    // On our tables it fails only if the store does, if it takes more steps than the connection allows, or if no row number is left.
    ensures cause { HasCauseIn (T.state tx.old) (T.state tx.new) result }
{
    match row.insert(tx, key) {
        Ok(_) => Ok(false),
        Err(error) => {
            if !is_conflict(&error) {
                return Err(error);
            }
            row.put(tx, key)?;
            Ok(true)
        }
    }
}

/// Writes over the row with the key, or puts a new one if no row has it. Answers whether one had it. It fails only by what stops any
/// change.
#[tactic(auto, using(crate::proofs::InsideLemmas::stays_then))]
fn write_over<T: Run, R: TableRow>(tx: &mut T, key: R::Key, row: &R) -> Result<bool, Error>
    // The transaction is on the connection that it was on.
    ensures same_reference { T.lender tx.new ≡ T.lender tx.old }
    // Nothing is committed: a crash leaves what it could leave before.
    ensures inside { StaysInside (T.state tx.old) (T.state tx.new) }
    // If it succeeds, the tables have this row at its key, and change nowhere else.
    ensures written { OnOk result (Changes (R.with_row key (Some row.now)) (T.state tx.old) (T.state tx.new)) }
    // On our tables it fails only if the store does, if it takes more steps than the connection allows, or if no row number is left.
    ensures cause { HasCauseIn (T.state tx.old) (T.state tx.new) result }
{
    let count = row.update(tx, key)?;
    if count > 0 {
        return Ok(true);
    }
    write_new(tx, key, row)
}

/// Puts the new row of a key, or deletes the old one if there is no new one. Answers whether the next row is expected to be there.
///
/// If a row is expected, the cheaper statement is tried first, which only writes over one. It fails only by what stops any change.
fn write_row<T: Run, R: TableRow>(
    tx: &mut T,
    key: R::Key,
    cells: &Option<R>,
    expected: bool,
) -> Result<bool, Error>
    // The transaction is on the connection that it was on.
    ensures same_reference { T.lender tx.new ≡ T.lender tx.old }
    // Nothing is committed: a crash leaves what it could leave before.
    ensures inside { StaysInside (T.state tx.old) (T.state tx.new) }
    // If it succeeds, the tables have the new row at the key, or none if there is no new one, and change nowhere else.
    ensures written { OnOk result (Changes (R.with_row key cells.now) (T.state tx.old) (T.state tx.new)) }
    // On our tables it fails only if the store does, if it takes more steps than the connection allows, or if no row number is left.
    ensures cause { HasCauseIn (T.state tx.old) (T.state tx.new) result }
{
    match cells {
        Some(row) if expected => write_over(tx, key, row),
        Some(row) => write_new(tx, key, row),
        None => {
            R::remove(tx, key)?;
            Ok(expected)
        }
    }
}

/// Writes changes of rows of one table, one after another: at each key the new row, or none. The first row is taken to be there or not as
/// the hint says. After a row that wasn't there the others are taken to be new too, until one is there. It fails only by what stops any
/// change.
#[tactic(auto, using(crate::proofs::InsideLemmas::stays_then))]
pub fn write_rows<T: Run, R: TableRow>(
    tx: &mut T,
    changes: &[(R::Key, Option<R>)],
    first_expected: bool,
) -> Result<(), Error>
    // The transaction is on the connection that it was on.
    ensures same_reference { T.lender tx.new ≡ T.lender tx.old }
    // Nothing is committed: a crash leaves what it could leave before.
    ensures inside { StaysInside (T.state tx.old) (T.state tx.new) }
    // If it succeeds, the table has these changes, and every row that none of them names stays.
    ensures written { OnOk result (Changes (with_each R.with_row changes.now) (T.state tx.old) (T.state tx.new)) }
    // On our tables it fails only if the store does, if it takes more steps than the connection allows, or if no row number is left.
    ensures cause { HasCauseIn (T.state tx.old) (T.state tx.new) result }
{
    let mut expected = first_expected;
    for change in changes {
        expected = write_row(tx, change.0, &change.1, expected)?;
    }
    Ok(())
}
