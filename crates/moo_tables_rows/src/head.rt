//! The table `head`: what it is, and the writing of its rows.

ghost use Rattle.std.specs.Prelude.{◌≡◌, ◌<◌, ◌^◌, OnOk};
ghost use Rattle.sqlite.specs.Values.{bound};
ghost use Rattle.moo_tables_rows.specs.{Cells.{with_head_cells}, Cause.{HasCauseIn}, Head.{head_cells}, Inside.{StaysInside, Changes}};
ghost use Rattle.moo_tables_rows.specs.Version.{present};

use crate::our_table::OurTable;
use crate::statement::{Run, counter_value};
use crate::version::Version;
use moo_rows::Head;
use sqlite::Error;
use sqlite_schema::schema::Kind;
use sqlite_value::value::ValueRef;

/// The table `head`, as a database has it.
pub const HEAD: OurTable = OurTable {
    name: "head",
    tree: 0,
    is_paired: false,
    columns: &[
        ("id", Kind::Integer),
        ("version", Kind::Integer),
        ("seq", Kind::Integer),
        ("top", Kind::Integer),
        ("next_prop", Kind::Integer),
        ("next_verb", Kind::Integer),
    ],
    create: "CREATE TABLE head (id INTEGER NOT NULL PRIMARY KEY, version INTEGER NOT NULL, seq INTEGER NOT NULL, top INTEGER NOT NULL, next_prop INTEGER NOT NULL, next_verb INTEGER NOT NULL) STRICT",
    read: "SELECT id, version, seq, top, next_prop, next_verb FROM head ORDER BY id",
};

/// The values of the row of `head`: its id, which is 1, the present version, and the counters.
fn head_values(row: &Head) -> [ValueRef<'static>; 6]
    // The number of the last batch fits a cell, which is a signed number of 64 bits.
    requires { row.now.seq < 2 ^ 63 }
    ensures { bound result ≡ head_cells present row.now }
{
    [
        ValueRef::Int(1),
        ValueRef::Int(Version::PRESENT.number()),
        ValueRef::Int(row.seq as i64),
        ValueRef::Int(i64::from(row.top)),
        counter_value(row.next_prop),
        counter_value(row.next_verb),
    ]
}

/// Puts the row of `head`, in place of the one that is there. A new table has no row yet, and then it is inserted. It fails only by what
/// stops any change (`StopsChange`).
#[tactic(auto, using(crate::proofs::InsideLemmas::stays_then))]
pub fn put_head<T: Run>(tx: &mut T, row: &Head) -> Result<(), Error>
    // The number of the last batch fits a cell, which is a signed number of 64 bits.
    requires { row.now.seq < 2 ^ 63 }
    // The transaction is on the connection that it was on.
    ensures same_reference { T.lender tx.new ≡ T.lender tx.old }
    // Nothing is committed: a crash leaves what it could leave before.
    ensures inside { StaysInside (T.state tx.old) (T.state tx.new) }
    // If it succeeds, `head` has this row, of the present version, and the other tables are as they were.
    ensures put { OnOk result (Changes (with_head_cells row.now) (T.state tx.old) (T.state tx.new)) }
    // On our tables it fails only if the store does, if it takes more steps than the connection allows, or if no row number is left.
    ensures cause { HasCauseIn (T.state tx.old) (T.state tx.new) result }
{
    let values = head_values(row);
    let count = tx.run(
        "UPDATE head SET version = ?2, seq = ?3, top = ?4, next_prop = ?5, next_verb = ?6 WHERE id = ?1",
        &values,
    )?;
    if count > 0 {
        return Ok(());
    }
    tx.run(
        "INSERT INTO head VALUES (?1, ?2, ?3, ?4, ?5, ?6) ON CONFLICT (id) DO UPDATE SET version = ?2, seq = ?3, top = ?4, next_prop = ?5, next_verb = ?6",
        &values,
    )?;
    Ok(())
}
