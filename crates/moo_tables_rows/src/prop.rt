//! The table `prop`: what it is, and the writing of its rows.

ghost use Rattle.std.specs.Prelude.{◌≡◌};
ghost use Rattle.sqlite.specs.Values.{bound};
ghost use Rattle.moo_tables_rows.specs.{Cells.{with_prop_cells}, Prop.{prop_row, prop_table}};

use crate::our_table::OurTable;
use crate::statement::{Run, counter_value, object_value, text_value};
use crate::table_row::TableRow;
use moo_rows::PropId;
use moo_value::ObjNo;
use sqlite::Error;
use sqlite_schema::schema::Kind;
use sqlite_value::value::ValueRef;

/// The table `prop`, as a database has it.
pub const PROP: OurTable = OurTable {
    name: "prop",
    tree: 2,
    is_paired: false,
    columns: &[
        ("id", Kind::Integer),
        ("definer", Kind::Integer),
        ("name", Kind::Text),
    ],
    create: "CREATE TABLE prop (id INTEGER NOT NULL PRIMARY KEY, definer INTEGER NOT NULL, name TEXT NOT NULL) STRICT",
    read: "SELECT id, definer, name FROM prop ORDER BY id",
};

/// A row of the table `prop`, without its key.
#[derive(Drop)]
pub struct PropCells {
    pub definer: ObjNo,
    pub name: Vec<u8>,
}

/// The values of a row, in the order of the columns.
fn prop_values(id: PropId, row: &PropCells) -> [ValueRef<'_>; 3]
    ensures { bound result ≡ prop_row id row.now }
{
    [
        counter_value(id.0),
        object_value(row.definer),
        text_value(row.name.as_slice()),
    ]
}

impl TableRow for PropCells {
    type Key = PropId;

    ghost with_row = { with_prop_cells };

    ghost table = { prop_table };

    fn text_of_update() -> &'static str {
        "UPDATE prop SET definer = ?2, name = ?3 WHERE id = ?1"
    }

    fn text_of_insert() -> &'static str {
        "INSERT INTO prop VALUES (?1, ?2, ?3)"
    }

    fn text_of_put() -> &'static str {
        "INSERT INTO prop VALUES (?1, ?2, ?3) ON CONFLICT (id) DO UPDATE SET definer = ?2, name = ?3"
    }

    fn write<T: Run>(&self, tx: &mut T, id: PropId, text: &str) -> Result<usize, Error> {
        tx.run(text, &prop_values(id, self))
    }

    fn remove<T: Run>(tx: &mut T, id: PropId) -> Result<usize, Error> {
        tx.run("DELETE FROM prop WHERE id = ?1", &[counter_value(id.0)])
    }
}
