//! Whether rows come in the order of their keys, each key once.
//!
//! The order of a query's rows is proved only if the disk returned what was written: so it is tested here.

ghost use Rattle.std.specs.Prelude.{◌≡◌, ◌↔◌, false, option_map, IsTrue, IfSome, IfNone};
ghost use Rattle.sqlite.specs.{Order.{column, value_cmp}, declared.types.Value.TheVariants.{Int}};
ghost use Rattle.sqlite_trees.specs.View.{is_int};
ghost use Rattle.moo_tables_rows.specs.Inside.{AreKeyed};
ghost use Rattle.moo_tables.specs.{Listing.{ArePaired, AreListed}, Rising.{has_two_numbers, is_above, pair_cmp, pair_of_ints}};

use crate::reading::CellLists;
use sqlite::Row;
use sqlite_value::value::ValueRef;

/// The whole number in this column; None if the cell has something else.
fn number_at(row: &Row, at: usize) -> Option<i64>
    ensures some { IfSome result (λ n. column row.now at ≡ Int n) }
    ensures none { IfNone result (is_int (column row.now at) ≡ false) }
{
    match row.get_ref(at) {
        Ok(ValueRef::Int(n)) => Some(n),
        _ => None,
    }
}

/// The whole numbers in the first two columns; None if one of the cells has something else.
fn pair_in(row: &Row) -> Option<(i64, i64)>
    ensures some { IfSome result (λ pair. (column row.now 0 ≡ Int pair.0) × (column row.now 1 ≡ Int pair.1)) }
    ensures none { IfNone result (has_two_numbers row.now ≡ false) }
{
    let first = number_at(row, 0)?;
    let second = number_at(row, 1)?;
    Some((first, second))
}

/// Whether a key of one number is above the last one, or is the first.
#[tactic(auto, using(crate::proofs::ListedLemmas::is_value_cmp))]
fn is_number_above(last: Option<i64>, number: i64) -> bool
    ensures { result ≡ is_above value_cmp (option_map Int last) (Int number) }
{
    match last {
        Some(last) => last.cmp(&number).is_lt(),
        None => true,
    }
}

/// Whether a key of two numbers is above the last one, or is the first. The first numbers are compared first.
#[tactic(auto, using(crate::proofs::ListedLemmas::is_value_cmp))]
fn is_pair_above(last: Option<(i64, i64)>, pair: (i64, i64)) -> bool
    ensures { result ≡ is_above pair_cmp (option_map pair_of_ints last) (pair_of_ints pair) }
{
    match last {
        Some(last) => last.0.cmp(&pair.0).then(last.1.cmp(&pair.1)).is_lt(),
        None => true,
    }
}

/// Whether the first column of these rows is a whole number that rises from row to row.
pub fn are_numbered(rows: &[Row]) -> bool
    ensures { IsTrue result ↔ AreKeyed rows.now }
{
    let mut last = None;
    for row in rows {
        let Some(number) = number_at(row, 0) else {
            return false;
        };
        if !is_number_above(last, number) {
            return false;
        }
        last = Some(number);
    }
    true
}

/// Whether the first two columns of these rows are whole numbers, and the pair of them rises from row to row.
pub fn are_paired(rows: &[Row]) -> bool
    ensures { IsTrue result ↔ ArePaired rows.now }
{
    let mut last = None;
    for row in rows {
        let Some(pair) = pair_in(row) else {
            return false;
        };
        if !is_pair_above(last, pair) {
            return false;
        }
        last = Some(pair);
    }
    true
}

/// Whether the rows of each table come in the order of their keys, each key once and each a whole number.
///
/// The rows that `read_tables` gives are so, if the disk returned what was written.
pub fn are_listed(lists: &CellLists) -> bool
    ensures { IsTrue result ↔ AreListed lists.now }
{
    are_numbered(&lists.head)
        && are_numbered(&lists.object)
        && are_numbered(&lists.prop)
        && are_paired(&lists.slot)
        && are_paired(&lists.verb)
        && are_numbered(&lists.petition)
        && are_numbered(&lists.petition_head)
}
