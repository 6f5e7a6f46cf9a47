//! The statements of a transaction, and the values that they take.

ghost use Rattle.std.specs.{Prelude.{◌≡◌, IsTrue, IfOk, pos}, Borrow.{GName}};
ghost use Rattle.sqlite.specs.{State.{State, HasCleanDisk, Executes, ExecutesInside}, Held.{state as state_of}, Values.{bound}};
ghost use Rattle.sqlite.specs.declared.types.Value.TheVariants.{Int, Text};
ghost use Rattle.sqlite_value.specs.Value.{owned};
ghost use Rattle.moo_tables_rows.specs.{Cause.{is_conflict}, Cells.{flag_cell}, Inside.{StaysInside}};

use moo_value::ObjNo;
use sqlite::{Alter, Error, ErrorCode, Transaction};
use sqlite_value::value::ValueRef;

/// A transaction, whichever store it is on. The proof of code over any transaction is cheaper than that of code over any store.
pub trait Run {
    /// The state of the connection, in the transaction.
    ghost state: { Self → State };

    /// Which connection it is on.
    ghost lender: { Self → GName };

    /// Runs one statement of the transaction with these parameters, and answers how many rows it changed. The errors are those of
    /// `execute` of `sqlite`.
    fn run(&mut self, sql: &str, params: &[ValueRef<'_>]) -> Result<usize, Error>
        // The transaction is on the connection that it was on.
        ensures same_reference { lender self.new ≡ lender self.old }
        // Nothing is committed.
        ensures inside { StaysInside (state self.old) (state self.new) }
        // A statement that succeeds was executed, and the transaction is open still.
        ensures ran { HasCleanDisk (state self.new) → IfOk result (λ count.
            IsTrue (state self.new).in_transaction
            × Executes sql.now (bound params.now) (state self.old) (state self.new) result) }
        // In an open transaction the statement does what `sqlite` says of a statement that can't end the transaction.
        ensures executes { HasCleanDisk (state self.new) → IsTrue (state self.old).in_transaction →
            ExecutesInside 0 sql.now (bound params.now) (state self.old) (state self.new) result };
}

impl<S: Alter> Run for Transaction<'_, S> {
    ghost state = { λ tx. state_of S.Store tx.conn.now };

    ghost lender = { λ tx. tx.conn.ghost_name };

    fn run(&mut self, sql: &str, params: &[ValueRef<'_>]) -> Result<usize, Error> {
        self.execute(sql, params)
    }
}

/// Whether an error says that a rule of the table refused a row: another row has its key.
pub fn is_conflict(error: &Error) -> bool
    ensures { result ≡ is_conflict error.now }
{
    matches!(
        error,
        Error::SqliteFailure(ErrorCode::ConstraintViolation(_))
    )
}

/// The number of an object, -1 to 2,147,483,647, as a cell.
pub fn object_value(n: ObjNo) -> ValueRef<'static>
    ensures { owned result ≡ Int n.0 }
{
    ValueRef::Int(i64::from(n.0))
}

/// The number of a property, a verb or a petition, or the next one to be given, as a cell.
pub fn counter_value(n: u32) -> ValueRef<'static>
    ensures { owned result ≡ Int (pos n) }
{
    ValueRef::Int(i64::from(n))
}

/// Bytes, as the cell of a text.
pub fn text_value(bytes: &[u8]) -> ValueRef<'_>
    ensures { owned result ≡ Text bytes.now }
{
    ValueRef::Text(bytes)
}

/// A flag, as the cell 0 or 1.
pub fn flag_value(b: bool) -> ValueRef<'static>
    ensures { owned result ≡ flag_cell b }
{
    ValueRef::Int(if b { 1 } else { 0 })
}
