//! Testing each row of a map for one kind of damage.

ghost use Rattle.std.specs.{Prelude.{◌≡◌, Bool}, List.{list_any}, FinMap.{entries}};
ghost use Rattle.moo_rows.specs.declared.row.Head.{Head};
ghost use Rattle.moo_world.specs.{PropertyCalls.{is_clear}, Rows.{world_of}, World.{IsTree}};
ghost use Rattle.moo_props.specs.Names.{defines};
ghost use Rattle.moo_damage.specs.First.{IsLeastPassing};
ghost use Rattle.moo_damage.specs.Damage.{is_object_past, is_prop_past, is_verb_past, is_petition_past, is_lost, lacks_definer, share_name};
ghost use Rattle.moo_damage.specs.Damage.{is_double, is_owed, is_strange, is_missing, is_clear_definer, is_strange_verb};
ghost use Rattle.moo_damage.specs.{OwnClear.{has_clear}, Missing.{IsFirstMissing, Misses}};

use crate::first::{any_bad, first_bad};
use crate::trees::TreeLink;
use moo_rows::{
    Head, KeyedRow, ObjRow, PetitionId, PetitionRow, PropId, PropRow, Rows, SlotRow, SlotState,
    VerbId, VerbRow, each_object,
};
use moo_tree::{is_nothing, is_under, valid};
use moo_value::{ObjNo, same_name};

/// A kind of row whose numbers the head counts.
pub(crate) trait NumberedRow: KeyedRow {
    ghost is_past: { Head → Self.Key → Bool };

    /// Whether the number of a key was never given, by the counters of the head.
    fn is_past(head: Head, key: Self::Key) -> bool
        ensures { result ≡ is_past head key };
}

impl NumberedRow for ObjRow {
    ghost is_past = { is_object_past };

    /// Whether the number of an object is below 0, or above the greatest that was given.
    fn is_past(head: Head, x: ObjNo) -> bool {
        x.0 < 0 || head.top < x.0
    }
}

impl NumberedRow for PropRow {
    ghost is_past = { is_prop_past };

    /// Whether the number of a property is that of the next one, or above it.
    fn is_past(head: Head, id: PropId) -> bool {
        head.next_prop <= id.0
    }
}

impl NumberedRow for VerbRow {
    ghost is_past = { is_verb_past };

    /// Whether the number of a verb is that of the next one, or above it.
    fn is_past(head: Head, key: (ObjNo, VerbId)) -> bool {
        head.next_verb <= key.1.0
    }
}

impl NumberedRow for PetitionRow {
    ghost is_past = { is_petition_past };

    /// Whether the number of a petition is that of the next one, or above it.
    fn is_past(head: Head, id: PetitionId) -> bool {
        head.next_petition <= id.0
    }
}

/// The least key of a row whose number was never given; `None` if each was.
pub(crate) fn first_past<T: NumberedRow, R: Rows>(rows: &R) -> Option<T::Key>
    ensures { IsLeastPassing (T.map_of (R.held rows.now).maps) (λ key _. T.is_past (R.held rows.now).maps.head key) result }
{
    first_bad::<T, R, _>(rows, |key, _row| T::is_past(rows.head(), key))
}

/// Whether the link of a row names neither an object nor `#-1`.
pub(crate) fn is_lost<R: Rows>(rows: &R, link: TreeLink, row: &ObjRow) -> bool
    ensures { result ≡ is_lost link (R.held rows.now).maps row.now }
{
    let next = link.link_of(row);
    if is_nothing(next) {
        return false;
    }
    !valid(rows, next)
}

/// The least object whose link names neither an object nor `#-1`; `None` if there is no such object.
pub(crate) fn first_lost<R: Rows>(rows: &R, link: TreeLink) -> Option<ObjNo>
    ensures { IsLeastPassing (R.held rows.now).maps.objects (λ _ row. is_lost link (R.held rows.now).maps row) result }
{
    first_bad::<ObjRow, R, _>(rows, |_x, row| is_lost(rows, link, row))
}

/// The least property whose definer isn't an object; `None` if there is no such property.
pub(crate) fn first_undefined<R: Rows>(rows: &R) -> Option<PropId>
    ensures { IsLeastPassing (R.held rows.now).maps.props (λ _ row. lacks_definer (R.held rows.now).maps row) result }
{
    first_bad::<PropRow, R, _>(rows, |_id, row| !valid(rows, row.definer))
}

/// The least verb under a number that isn't an object's; `None` if there is no such verb.
pub(crate) fn first_strange_verb<R: Rows>(rows: &R) -> Option<(ObjNo, VerbId)>
    ensures { IsLeastPassing (R.held rows.now).maps.verbs (λ key _. is_strange_verb (R.held rows.now).maps key) result }
{
    first_bad::<VerbRow, R, _>(rows, |key, _row| !valid(rows, key.0))
}

/// Whether two properties have one name, on one object or on an object and its ancestor.
fn share_name<R: Rows>(rows: &R, one: &PropRow, other: &PropRow) -> bool
    // Parents and locations are objects or `#-1`, without loops, and each object's number was given.
    requires { IsTree (world_of (R.held rows.now).maps) }
    ensures { result ≡ share_name (world_of (R.held rows.now).maps) one.now other.now }
{
    if !same_name(&one.name, &other.name) {
        return false;
    }
    if is_under(rows, one.definer, other.definer) {
        return true;
    }
    is_under(rows, other.definer, one.definer)
}

/// Whether a property of lesser number has the name of a property already, on the same object, an ancestor or a descendant.
pub(crate) fn is_double<R: Rows>(rows: &R, id: PropId, row: &PropRow) -> bool
    // Parents and locations are objects or `#-1`, without loops, and each object's number was given.
    requires { IsTree (world_of (R.held rows.now).maps) }
    ensures { result ≡ is_double (R.held rows.now).maps id row.now }
{
    any_bad::<PropRow, R, _>(rows, |other, other_row| {
        other.0 < id.0 && share_name(rows, row, other_row)
    })
}

/// Whether an object is owed a slot of a property: the object or an ancestor defines it.
fn is_owed<R: Rows>(rows: &R, key: (ObjNo, PropId)) -> bool
    // Parents and locations are objects or `#-1`, without loops, and each object's number was given.
    requires { IsTree (world_of (R.held rows.now).maps) }
    ensures { result ≡ is_owed (R.held rows.now).maps key }
{
    match rows.prop(key.1) {
        None => false,
        Some(row) => is_under(rows, key.0, row.definer),
    }
}

/// Whether a slot is one of a property that its object isn't owed.
pub(crate) fn is_strange<R: Rows>(rows: &R, key: (ObjNo, PropId)) -> bool
    // Parents and locations are objects or `#-1`, without loops, and each object's number was given.
    requires { IsTree (world_of (R.held rows.now).maps) }
    ensures { result ≡ is_strange (R.held rows.now).maps key }
{
    !is_owed(rows, key)
}

/// Whether an object is owed a slot of a property and has none.
fn is_missing<R: Rows>(rows: &R, key: (ObjNo, PropId)) -> bool
    // Parents and locations are objects or `#-1`, without loops, and each object's number was given.
    requires { IsTree (world_of (R.held rows.now).maps) }
    ensures { result ≡ is_missing (R.held rows.now).maps key }
{
    if !is_owed(rows, key) {
        return false;
    }
    rows.slot(key).is_none()
}

/// Whether a slot has no value of its own.
fn is_clear(state: &SlotState) -> bool
    ensures { result ≡ is_clear state.now }
{
    match state {
        SlotState::Clear => true,
        SlotState::Set(_) => false,
    }
}

/// Whether an object defines a property.
pub(crate) fn defines<R: Rows>(rows: &R, key: (ObjNo, PropId)) -> bool
    ensures { result ≡ defines (R.held rows.now).maps key.0 key.1 }
{
    match rows.prop(key.1) {
        None => false,
        Some(row) => key.0 == row.definer,
    }
}

/// Whether a slot is clear on the object that defines its property.
fn is_clear_definer<R: Rows>(rows: &R, key: (ObjNo, PropId), row: &SlotRow) -> bool
    ensures { result ≡ is_clear_definer (R.held rows.now).maps key row.now }
{
    if !is_clear(&row.state) {
        return false;
    }
    defines(rows, key)
}

/// Whether an object has a clear slot of a property.
fn has_clear<R: Rows>(rows: &R, key: (ObjNo, PropId)) -> bool
    ensures { result ≡ has_clear (R.held rows.now).maps key.0 key.1 }
{
    match rows.slot(key) {
        None => false,
        Some(row) => is_clear(&row.state),
    }
}

/// Whether any property has a clear slot on its definer.
fn any_clear_own<R: Rows>(rows: &R) -> bool
    ensures { result ≡ list_any (λ e. has_clear (R.held rows.now).maps e.1.definer e.0) (entries (R.held rows.now).maps.props) }
{
    any_bad::<PropRow, R, _>(rows, |id, row| has_clear(rows, (row.definer, id)))
}

/// The least slot that is clear on the definer of its property; `None` if there is no such slot. Slots are looked at only if some property
/// has one.
pub(crate) fn first_clear<R: Rows>(rows: &R) -> Option<(ObjNo, PropId)>
    ensures { IsLeastPassing (R.held rows.now).maps.slots (is_clear_definer (R.held rows.now).maps) result }
{
    if !any_clear_own(rows) {
        return None;
    }
    first_bad::<SlotRow, R, _>(rows, |key, row| is_clear_definer(rows, key, row))
}

/// The least property that x is owed and has no slot of; `None` if there is no such property.
fn first_missing_of<R: Rows>(rows: &R, x: ObjNo) -> Option<PropId>
    // Parents and locations are objects or `#-1`, without loops, and each object's number was given.
    requires { IsTree (world_of (R.held rows.now).maps) }
    ensures { Misses (R.held rows.now).maps x result }
{
    first_bad::<PropRow, R, _>(rows, |key, _row| is_missing(rows, (x, key)))
}

/// The least slot that an object is owed and doesn't have; `None` if there is no such slot.
pub(crate) fn first_missing<R: Rows>(rows: &R) -> Option<(ObjNo, PropId)>
    // Parents and locations are objects or `#-1`, without loops, and each object's number was given.
    requires { IsTree (world_of (R.held rows.now).maps) }
    ensures { IsFirstMissing (R.held rows.now).maps result }
{
    for (key, _row) in each_object(rows) {
        match first_missing_of(rows, key) {
            Some(id) => return Some((key, id)),
            None => {}
        }
    }
    None
}
