//! The counters, and the table of the number of the next petition.

ghost use Rattle.std.specs.Prelude.{◌≡◌, ◌≢◌, ℕ, pos, IfSome, IfNone};
ghost use Rattle.moo_tables_rows.specs.{Cells.{petition_head_cells}, Inside.{AreKeyed}};
ghost use Rattle.moo_cells.specs.Head.{IsCounter, by_rowid, ReadsCounter, HasCounter};

use crate::cell::int_at;
use moo_tables::Version;
use sqlite::Row;

/// How many columns the table of the number of the next petition has.
const COLUMNS: usize = 2;

/// The number of the first petition.
pub(crate) const FIRST_PETITION: u32 = 1;

/// The next number of a property, a verb or a petition, from its cell; None if that isn't 1 to 4,294,967,295.
pub(crate) fn counter_in(number: i64) -> Option<u32>
    ensures some { IfSome result (λ counter. number ≡ pos counter) }
    ensures within { IfSome result (λ counter. IsCounter counter) }
    // If there isn't one, the number isn't that of a counter within its limits.
    ensures none { IfNone result ((counter : ℕ) → IsCounter counter → number ≢ pos counter) }
{
    match u32::try_from(number) {
        Ok(counter) if 0 < counter => Some(counter),
        _ => None,
    }
}

/// The number of the next petition that the cells of a row of `petition_head` show; None if they aren't id 1 and a counter within its
/// limits.
fn counter_of(cells: &Row) -> Option<u32>
    ensures some { IfSome result (λ next. cells.now ≡ petition_head_cells next) }
    ensures within { IfSome result (λ next. IsCounter next) }
    // If there isn't one, the cells aren't id 1 and a counter within its limits.
    ensures none { IfNone result ((next : ℕ) → IsCounter next → cells.now ≢ petition_head_cells next) }
{
    if cells.column_count() != COLUMNS {
        return None;
    }
    let id = int_at(cells, 0).ok()?;
    let next = int_at(cells, 1).ok()?;
    if id != 1 {
        return None;
    }
    counter_in(next)
}

/// The number of the next petition, from the rows of `petition_head`; 1, if the version has no petitions. None if the table isn't one row
/// of id 1 with a counter within its limits.
pub(crate) fn read_counter(version: Version, rows: &[Row]) -> Option<u32>
    // The keys are whole numbers that rise.
    requires { AreKeyed rows.now }
    ensures some { IfSome result (λ next. ReadsCounter version (by_rowid rows.now) next) }
    ensures none { IfNone result (¬ (HasCounter version (by_rowid rows.now))) }
{
    if !version.has_petitions() {
        return Some(FIRST_PETITION);
    }
    if rows.len() != 1 {
        return None;
    }
    counter_of(&rows[0])
}
