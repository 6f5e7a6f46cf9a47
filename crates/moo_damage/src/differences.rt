//! Finding the first row in which two sets of rows differ.

ghost use Rattle.std.specs.Prelude.{◌≡◌, IfSome, IfNone};
ghost use Rattle.moo_damage.specs.Differences.{IsFirstDifference, IsFirstUnlike, IsLeastUnlike, IsUnlike};

use crate::first::first_bad;
use crate::kind::{Key, object_key, petition_key, prop_key, slot_key, verb_key};
use moo_memory::Flat;
use moo_rows::{KeyedRow, ObjRow, PetitionRow, PropRow, Row as _, Rows, SlotRow, VerbRow, ordered};

/// Whether the rows `there` have another row, or none, under the key of a row.
fn is_unlike<T: KeyedRow, R: Rows>(there: &R, key: T::Key, row: &T) -> bool
    ensures { IsUnlike (T.map_of (R.held there.now).maps) result key row.now }
{
    match T::find(there, key) {
        None => true,
        Some(held) => !held.equals(row),
    }
}

/// The least key of a kind of row under which the rows `there` have another row, or none; `None` if there is no such key.
fn first_unlike<T: KeyedRow, R: Rows>(rows: &R, there: &R) -> Option<T::Key>
    ensures { IsLeastUnlike (T.map_of (R.held rows.now).maps) (T.map_of (R.held there.now).maps) result }
{
    first_bad::<T, R, _>(rows, |key, row| is_unlike::<T, R>(there, key, row))
}

/// The least key of a kind of row whose rows differ in the two sets, or that is in one alone; `None` if there is no such key.
fn first_differing<T: KeyedRow, R: Rows>(own: &R, found: &R) -> Option<T::Key>
    ensures { IsFirstUnlike (T.map_of (R.held own.now).maps) (T.map_of (R.held found.now).maps) result }
{
    ordered::least(
        first_unlike::<T, R>(own, found),
        first_unlike::<T, R>(found, own),
    )
}

/// The first row in which two sets of rows of any storage differ, in the order of `first_difference`; `None` if they are equal.
fn difference<R: Rows>(own: &R, found: &R) -> Option<Key>
    // The two sets differ at that key, and agree at each key before it.
    ensures differs { IfSome result (λ key. IsFirstDifference (R.held own.now).maps (R.held found.now).maps key) }
    // `None` only if both have the same head and the same rows.
    ensures same { IfNone result ((R.held own.now).maps ≡ (R.held found.now).maps) }
{
    if own.head() != found.head() {
        return Some(Key::Head);
    }
    if let Some(x) = first_differing::<ObjRow, R>(own, found) {
        return Some(object_key(x));
    }
    if let Some(id) = first_differing::<PropRow, R>(own, found) {
        return Some(prop_key(id));
    }
    if let Some(key) = first_differing::<SlotRow, R>(own, found) {
        return Some(slot_key(key));
    }
    if let Some(key) = first_differing::<VerbRow, R>(own, found) {
        return Some(verb_key(key));
    }
    if let Some(id) = first_differing::<PetitionRow, R>(own, found) {
        return Some(petition_key(id));
    }
    None
}

/// The first row in which two sets of rows differ, in the order head, objects, properties, slots, verbs, petitions, and in each by
/// number: both have it with different content, or one of them alone has it. `None` if they are equal. Takes no memory.
pub fn first_difference(own: &Flat, found: &Flat) -> Option<Key>
    // The two sets differ at that key, and agree at each key before it.
    ensures differs { IfSome result (λ key. IsFirstDifference own.now.maps found.now.maps key) }
    // `None` only if both have the same head and the same rows.
    ensures same { IfNone result (own.now.maps ≡ found.now.maps) }
{
    difference(own, found)
}
