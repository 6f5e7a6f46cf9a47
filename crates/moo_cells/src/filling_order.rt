//! The order in which the rows of a table are put into a map.

ghost use Rattle.std.specs.List.Sorted.{IsPermutation};

use moo_tables::BLOCK;
use sqlite::Row;

/// The rows in another order: in each block every second row comes first, and then the rows between them.
///
/// A map splits a full node in the middle. Keys that rise never reach its lower half again, so that each node stays half empty. In this
/// order the keys between fill it: a map of all rows takes half the memory.
pub(crate) fn in_filling_order(mut rows: Vec<Row>) -> Vec<Row>
    ensures { IsPermutation rows.items result.items }
{
    let len = rows.len();
    for at in 0..len {
        let within = at % BLOCK;
        let from = at + within;
        if within < BLOCK / 2 && from < len {
            rows.swap(at, from);
        }
    }
    rows
}
