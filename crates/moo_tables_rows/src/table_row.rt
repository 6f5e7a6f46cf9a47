//! What the writer of rows asks of a table.

ghost use Rattle.std.specs.Prelude.{◌≡◌, Option, Some, None, IfOk, OnOk};
ghost use Rattle.sqlite.specs.Table.{Table};
ghost use Rattle.moo_tables_rows.specs.{Cause.{HasCauseIn, MeetsRowIn}, Tables.{Tables}, Texts.{insert_text, put_text, update_text}};
ghost use Rattle.moo_tables_rows.specs.{Over.{WritesOver, WritesRow}, Inside.{StaysInside, Changes}};

use crate::statement::Run;
use sqlite::Error;

/// A row, without its key, of a table that has many rows.
pub trait TableRow {
    type Key: Copy;

    /// The tables with this row at the key, or without a row there. A row that leaves a cell as it is changes nothing if no row has the
    /// key.
    ghost with_row: { Self.Key → Option Self → Tables → Tables };

    /// The table that it is a row of.
    ghost table: { Table };

    /// The text of the statement that writes over the row with a key.
    fn text_of_update() -> &'static str
        ensures { result.now ≡ update_text table };

    /// The text of the statement that puts a new row.
    fn text_of_insert() -> &'static str
        ensures { result.now ≡ insert_text table };

    /// The text of the statement that puts a row, in place of the one with its key if there is one.
    fn text_of_put() -> &'static str
        ensures { result.now ≡ put_text table };

    /// Runs the statement with one of the three texts, and answers how many rows it wrote. If a cell of the row stays, the statement runs
    /// that writes over the other cells. It fails by what stops any change (`StopsChange`), or since another row has the key of a new one.
    fn write<T: Run>(&self, tx: &mut T, key: Self::Key, text: &str) -> Result<usize, Error>
        // The transaction is on the connection that it was on.
        ensures same_reference { T.lender tx.new ≡ T.lender tx.old }
        // Nothing is committed: a crash leaves what it could leave before.
        ensures inside { StaysInside (T.state tx.old) (T.state tx.new) }
        // If the text is one of the three, the tables change as that statement changes them.
        ensures wrote { WritesRow table (with_row key (Some self.now)) text.now (T.state tx.old) (T.state tx.new) result };

    /// Deletes the row with a key, if there is one. Answers how many rows it deleted: one or none. It fails only by what stops any change.
    fn remove<T: Run>(tx: &mut T, key: Self::Key) -> Result<usize, Error>
        // The transaction is on the connection that it was on.
        ensures same_reference { T.lender tx.new ≡ T.lender tx.old }
        // Nothing is committed: a crash leaves what it could leave before.
        ensures inside { StaysInside (T.state tx.old) (T.state tx.new) }
        // If it succeeds, no row has the key, and every other row stays.
        ensures gone { OnOk result (Changes (with_row key None) (T.state tx.old) (T.state tx.new)) }
        // On our tables it fails only if the store does, if it takes more steps than the connection allows, or if no row number is left.
        ensures cause { HasCauseIn (T.state tx.old) (T.state tx.new) result };

    /// Writes over the row with a key, if there is one. Answers how many rows it wrote over: one or none. It fails only by what stops any
    /// change.
    final fn update<T: Run>(&self, tx: &mut T, key: Self::Key) -> Result<usize, Error>
        // The transaction is on the connection that it was on.
        ensures same_reference { T.lender tx.new ≡ T.lender tx.old }
        // Nothing is committed: a crash leaves what it could leave before.
        ensures inside { StaysInside (T.state tx.old) (T.state tx.new) }
        // If it wrote over a row, the tables have the new row in its place; if over none, they stay as they are.
        ensures over { IfOk result (λ count. WritesOver (with_row key (Some self.now)) count (T.state tx.old) (T.state tx.new)) }
        // On our tables it fails only if the store does, if it takes more steps than the connection allows, or if no row number is left.
        ensures cause { HasCauseIn (T.state tx.old) (T.state tx.new) result }
    {
        self.write(tx, key, Self::text_of_update())
    }

    /// Puts a new row. If a row has its key, a rule of the table refuses the new one, and nothing changes. A row of which a cell stays is
    /// written over, if it is there, and else nothing changes.
    final fn insert<T: Run>(&self, tx: &mut T, key: Self::Key) -> Result<usize, Error>
        // The transaction is on the connection that it was on.
        ensures same_reference { T.lender tx.new ≡ T.lender tx.old }
        // Nothing is committed: a crash leaves what it could leave before.
        ensures inside { StaysInside (T.state tx.old) (T.state tx.new) }
        // If it succeeds, the tables have this row at its key, and change nowhere else.
        ensures put { OnOk result (Changes (with_row key (Some self.now)) (T.state tx.old) (T.state tx.new)) }
        // If it fails, another row has the key and nothing changed, or it has one of the causes that stop any change.
        ensures met { MeetsRowIn (T.state tx.old) (T.state tx.new) result }
    {
        self.write(tx, key, Self::text_of_insert())
    }

    /// Puts a row, in place of the one with its key if there is one. It fails only by what stops any change (`StopsChange`).
    final fn put<T: Run>(&self, tx: &mut T, key: Self::Key) -> Result<usize, Error>
        // The transaction is on the connection that it was on.
        ensures same_reference { T.lender tx.new ≡ T.lender tx.old }
        // Nothing is committed: a crash leaves what it could leave before.
        ensures inside { StaysInside (T.state tx.old) (T.state tx.new) }
        // If it succeeds, the tables have this row at its key, and change nowhere else.
        ensures put { OnOk result (Changes (with_row key (Some self.now)) (T.state tx.old) (T.state tx.new)) }
        // On our tables it fails only if the store does, if it takes more steps than the connection allows, or if no row number is left.
        ensures cause { HasCauseIn (T.state tx.old) (T.state tx.new) result }
    {
        self.write(tx, key, Self::text_of_put())
    }
}
