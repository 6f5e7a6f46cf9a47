//! Changes over a map of rows that stays as it is.

ghost use Rattle.std.specs.Prelude.{◌≡◌, ◌↔◌, ◌+◌, ◌≤◌, IsTrue, OnErr, OnOk, option_map, Some, None};
ghost use Rattle.std.specs.FinMap as map;
ghost use Rattle.moo_rows.specs.Ordered.{contents, IsNextAt};
ghost use Rattle.moo_memory.specs.Overlay.{row_over, IsNextOfEither};

use crate::ticks::Ticks;
use moo_rows::ordered::OrderedKey;
use moo_rows::{KeyedRow, Rows, ordered};
use std::alloc::AllocError;
use std::collections::BTreeMap;

/// The row of a key: if it is changed its new row, and else that of the base. `None` if there is no such row. Takes no memory.
pub fn get<'a, R: Rows, V: KeyedRow>(
    base: &'a R,
    changes: &'a BTreeMap<V::Key, Option<V>>,
    key: V::Key,
) -> Option<&'a V>
    ensures { option_map (λ row. row.now) result
        ≡ row_over (map.get (V.map_of (R.held base.now).maps)) (contents V.Key.cmp changes.now) key }
{
    match ordered::get(changes, key) {
        Some(Some(row)) => Some(row),
        Some(None) => None,
        None => V::find(base, key),
    }
}

/// The least key past `from` that is in the base or changed, though it may be removed; `None` if there is no such key. Takes no memory.
fn next_of_either<R: Rows, V: KeyedRow>(
    base: &R,
    changes: &BTreeMap<V::Key, Option<V>>,
    from: Option<V::Key>,
) -> Option<V::Key>
    ensures { IsNextOfEither (map.get (V.map_of (R.held base.now).maps)) (contents V.Key.cmp changes.now) from result }
{
    ordered::least(V::next(base, from), ordered::next(changes, from))
}

/// The least key past `from` that has a row, or the least of all if no `from` is given; `None` if there is no such key. Takes no memory.
pub fn next<R: Rows, V: KeyedRow>(
    base: &R,
    changes: &BTreeMap<V::Key, Option<V>>,
    from: Option<V::Key>,
) -> Option<V::Key>
    ensures { IsNextAt V.Key.cmp (row_over (map.get (V.map_of (R.held base.now).maps)) (contents V.Key.cmp changes.now)) from result }
{
    let mut last = from;
    loop {
        let key = match next_of_either(base, changes, last) {
            None => return None,
            Some(key) => key,
        };
        if !is_removed(changes, key) {
            return Some(key);
        }
        last = Some(key);
    }
}

/// Whether the changes remove the row of a key.
fn is_removed<K: OrderedKey, V>(changes: &BTreeMap<K, Option<V>>, key: K) -> bool
    ensures { IsTrue result ↔ (map.get (contents K.cmp changes.now) key ≡ Some None) }
{
    match ordered::get(changes, key) {
        Some(None) => true,
        _ => false,
    }
}

/// The new row of a key; `None` if the key isn't changed, or is removed. Takes no memory.
pub fn new_row<K: OrderedKey, V>(changes: &BTreeMap<K, Option<V>>, key: K) -> Option<&V> {
    match ordered::get(changes, key) {
        Some(Some(row)) => Some(row),
        _ => None,
    }
}

/// Sets the new row of a key, or `None` if its row is removed, and counts one write. After an `Err`, a lack of memory or of ticks, nothing
/// has changed.
pub fn put<K: OrderedKey, V: Drop>(
    changes: &mut BTreeMap<K, Option<V>>,
    writes: &mut u64,
    ticks: &Ticks,
    key: K,
    row: Option<V>,
) -> Result<(), AllocError>
    // The change is set, and counted as one write.
    ensures ok { OnOk result ((contents K.cmp changes.new ≡ map.insert (contents K.cmp changes.old) key row)
        × (writes.new ≡ writes.old + 1)) }
    // After an error neither the changes nor the count have changed.
    ensures err { OnErr result ((contents K.cmp changes.new ≡ contents K.cmp changes.old) × (writes.new ≡ writes.old)) }
    // Writes that were within the ticks stay within them.
    ensures most { writes.old ≤ ticks.now.most → writes.new ≤ ticks.now.most }
{
    if !ticks.may_put(*writes) {
        return Err(AllocError);
    }
    ordered::put(changes, key, row)?;
    *writes += 1;
    Ok(())
}
