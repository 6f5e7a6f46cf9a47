//! The tables of an earlier version made those of the present one.

ghost use Rattle.std.specs.Prelude.{◌≡◌, ◌<◌, ◌^◌, IsTrue, OnOk, false};
ghost use Rattle.sqlite.specs.{State.{HasCleanDisk}, Held.{state}};
ghost use Rattle.moo_tables_rows.specs.Inside.{StaysInside};
ghost use Rattle.moo_tables.specs.{Migrated.{GrowsTables, HasCauseOfMigrating, MigratesInside}, Transaction.{MigratesTables}};

use moo_rows::{Head, PropId};
use moo_tables_rows::{
    PETITION, PETITION_HEAD, Run, SLOT2, SlotCells, put_counter, put_head, write_rows,
};
use moo_value::ObjNo;
use sqlite::{Alter, Connection, Error};

/// Makes the tables that the second version added to the first, `slot2`, `petition` and `petition_head`, empty. The other tables stay as
/// they are. It fails only by what stops any change (`StopsChange`).
#[tactic(auto, using(moo_tables_rows::proofs::InsideLemmas::stays_then))]
pub(crate) fn create_added_tables<T: Run>(tx: &mut T) -> Result<usize, Error>
    // The transaction is on the connection that it was on.
    ensures same_reference { T.lender tx.new ≡ T.lender tx.old }
    // Nothing is committed: a crash leaves what it could leave before.
    ensures inside { StaysInside (T.state tx.old) (T.state tx.new) }
    // Tables of the first version become those of the present one, without slots and petitions.
    ensures made { OnOk result (GrowsTables (T.state tx.old) (T.state tx.new)) }
    // If the tables are of an earlier version, it fails only by what stops any change.
    ensures cause { HasCauseOfMigrating (T.state tx.old) (T.state tx.new) result }
{
    tx.run(SLOT2.create, &[])?;
    tx.run(PETITION.create, &[])?;
    tx.run(PETITION_HEAD.create, &[])
}

/// Makes the tables of the present version with this head and these slots, within a transaction.
///
/// The first petition has the number 1. Every row of the table `slot` is deleted, which only the first version reads. It fails only by what
/// stops any change (`StopsChange`).
#[tactic(auto, using(moo_tables_rows::proofs::InsideLemmas::stays_then))]
fn write_migrated<T: Run>(
    tx: &mut T,
    head: &Head,
    slots: &[((ObjNo, PropId), Option<SlotCells>)],
) -> Result<usize, Error>
    // The number of the last batch fits a cell, which is a signed number of 64 bits.
    requires { head.now.seq < 2 ^ 63 }
    // The transaction is on the connection that it was on.
    ensures same_reference { T.lender tx.new ≡ T.lender tx.old }
    // Nothing is committed: a crash leaves what it could leave before.
    ensures inside { StaysInside (T.state tx.old) (T.state tx.new) }
    // If it succeeds, the transaction is open still.
    ensures goes_on { HasCleanDisk (T.state tx.new) → OnOk result (IsTrue (T.state tx.new).in_transaction) }
    // Tables of an earlier version become those of the present one, with this head and these slots, and `slot` is empty.
    ensures migrated { OnOk result (MigratesInside head.now slots.now (T.state tx.old) (T.state tx.new)) }
    // If the tables are of an earlier version, it fails only by what stops any change.
    ensures cause { HasCauseOfMigrating (T.state tx.old) (T.state tx.new) result }
{
    create_added_tables(tx)?;
    put_counter(tx, 1)?;
    put_head(tx, head)?;
    write_rows(tx, slots, false)?;
    tx.run("DELETE FROM slot", &[])
}

/// Makes tables of an earlier version those of the present one, all or nothing.
///
/// The row of `head` is put anew, with the number of the present version. `slots` are the slots that there are from then on: of a key that
/// comes more than once the last counts. There is no petition, and the first will have the number 1. The table `slot` is emptied, and the
/// rows of the other tables stay as they are. The number of the last batch, `head.seq`, has to be below 2^63, and the connection in no
/// transaction. It fails only if the store does, if a statement takes more steps than the connection allows, or if a table has no number
/// left for a new row. After a fault of the store the database is as it was, unless the fault shut the connection; what a crash leaves is
/// the tables before or the tables after, at every exit.
pub fn migrate<S: Alter>(
    conn: &mut Connection<S>,
    head: &Head,
    slots: &[((ObjNo, PropId), Option<SlotCells>)],
) -> Result<(), Error>
    // The number of the last batch fits a cell, which is a signed number of 64 bits.
    requires limit { head.now.seq < 2 ^ 63 }
    // The connection is in no transaction.
    requires outside { (state S.Store conn.old).in_transaction ≡ false }
    // The connection is in no transaction afterwards.
    ensures outside { (state S.Store conn.new).in_transaction ≡ false }
    // Tables of an earlier version became those of the present one, committed; or nothing changed, and there is a cause. A crash leaves
    // what it could leave before, or the tables of the present version.
    ensures migrates { MigratesTables head.now slots.now (state S.Store conn.old) (state S.Store conn.new) result }
{
    let mut tx = conn.transaction();
    write_migrated(&mut tx, head, slots)?;
    tx.commit()
}
