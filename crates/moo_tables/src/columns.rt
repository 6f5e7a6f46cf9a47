//! Whether columns are those of a table of ours.

ghost use Rattle.std.specs.Prelude.{◌≡◌, ◌↔◌, map, IsTrue};
ghost use Rattle.moo_tables_rows.specs.Tables.{required};

use sqlite_schema::schema::{Column, Kind};
use sqlite_value::keys::Collation;
use sqlite_value::value::Value;

/// Whether a column is one of a STRICT table, with this name and type, never empty, without a default, and compared byte for byte.
fn is_required(column: &Column, name: &[u8], kind: Kind) -> bool
    ensures { IsTrue result ↔ column.now ≡ required kind name.now }
{
    column.name.as_slice() == name
        && column.kind == kind
        && column.is_strict
        && column.not_null
        && matches!(column.default, Value::Null)
        && column.collation == Collation::Binary
}

/// Whether the columns of a table are the listed ones, in their order: each with its name and type, of a STRICT table, never empty, without
/// a default, and compared byte for byte.
pub(crate) fn are_required(columns: &[Column], listed: &[(&str, Kind)]) -> bool
    ensures { IsTrue result ↔ columns.now ≡ map (λ c. required c.1 c.0.now) listed.now }
{
    match (columns, listed) {
        ([], []) => true,
        ([column, columns @ ..], [(name, kind), listed @ ..]) => {
            is_required(column, name.as_bytes(), *kind) && are_required(columns, listed)
        }
        _ => false,
    }
}
