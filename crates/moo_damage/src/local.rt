//! Testing whether the slots are just those that are owed, by a look at each row and its neighbours.

ghost use Rattle.std.specs.{Prelude.{◌≡◌, ◌<◌, true, not, IfOk, Some}, List.{list_any}, FinMap.{entries, get}};
ghost use Rattle.moo_rows.specs.declared.row.PropRow.{PropRow};
ghost use Rattle.moo_world.specs.{Rows.{world_of, IsGood}, World.{IsTree}};
ghost use Rattle.moo_damage.specs.{First.{IsLeastPassing}, Damage.{is_double, is_strange}, Missing.{IsFirstMissing}};
ghost use Rattle.moo_damage.specs.Local.{SlotsHold, has_slot, comes_down, lacks_slot_of};

use crate::checks::{defines, first_missing, is_double, is_strange};
use crate::first::{any_bad, first_bad};
use crate::names::are_names_apart;
use moo_rows::{ObjRow, PropId, PropRow, Rows, SlotRow, each_slot_of};
use moo_value::ObjNo;
use std::alloc::{AllocError, Global};

/// Whether an object has a slot of a property.
fn has_slot<R: Rows>(rows: &R, x: ObjNo, id: PropId) -> bool
    ensures { result ≡ has_slot (R.held rows.now).maps x id }
{
    rows.slot((x, id)).is_some()
}

/// Whether any property has no slot on its definer.
fn any_definer_lacks_slot<R: Rows>(rows: &R) -> bool
    ensures { result ≡ list_any (λ e. not (has_slot (R.held rows.now).maps e.1.definer e.0)) (entries (R.held rows.now).maps.props) }
{
    any_bad::<PropRow, R, _>(rows, |id, row| !has_slot(rows, row.definer, id))
}

/// Whether a slot is on an object that defines its property, or whose parent has a slot of it.
fn comes_down<R: Rows>(rows: &R, key: (ObjNo, PropId)) -> bool
    ensures { result ≡ comes_down (R.held rows.now).maps key }
{
    match rows.object(key.0) {
        None => false,
        Some(row) => {
            if defines(rows, key) {
                return true;
            }
            has_slot(rows, row.parent, key.1)
        }
    }
}

/// Whether any slot is on an object that neither defines its property nor has a parent with a slot of it.
fn any_slot_from_nowhere<R: Rows>(rows: &R) -> bool
    ensures { result ≡ list_any (λ e. not (comes_down (R.held rows.now).maps e.0)) (entries (R.held rows.now).maps.slots) }
{
    any_bad::<SlotRow, R, _>(rows, |key, _row| !comes_down(rows, key))
}

/// Whether x has no slot of some property that y has a slot of.
fn lacks_slot_of<R: Rows>(rows: &R, x: ObjNo, y: ObjNo) -> bool
    ensures { result ≡ lacks_slot_of (R.held rows.now).maps x y }
{
    for (key, _row) in each_slot_of(rows, y, PropId(0)) {
        if !has_slot(rows, x, key.1) {
            return true;
        }
    }
    false
}

/// Whether any object has no slot of a property that its parent has a slot of.
fn any_child_lacks_slot<R: Rows>(rows: &R) -> bool
    ensures { result ≡ list_any (λ e. lacks_slot_of (R.held rows.now).maps e.0 e.1.parent) (entries (R.held rows.now).maps.objects) }
{
    any_bad::<ObjRow, R, _>(rows, |x, row| lacks_slot_of(rows, x, row.parent))
}

/// Whether the slots are known to be just those that are owed, by a look at each slot, its object and the parent's slots. The slots of
/// good rows always are. If the answer is no, a slot may still be right: only this look at neighbours doesn't show it.
///
/// No chain is climbed: if chains end, what each object has of its parent it has of all ancestors. The only error is a lack of memory.
pub(crate) fn slots_are_owed<R: Rows>(alloc: Global, rows: &R) -> Result<bool, AllocError>
    // Parents and locations are objects or `#-1`, without loops, and each object's number was given.
    requires tree { IsTree (world_of (R.held rows.now).maps) }
    // Properties are numbered from 1.
    requires numbered { (id : PropId) (p : PropRow) → get (R.held rows.now).maps.props id ≡ Some p → 0 < id.0 }
    // If the answer is yes, no name is double, no slot is strange and none is missing.
    ensures hold { IfOk result (λ hold. hold ≡ true → SlotsHold (R.held rows.now).maps) }
    // Of good rows the answer is yes.
    ensures good { IsGood (R.held rows.now).maps → IfOk result (λ hold. hold ≡ true) }
{
    if any_definer_lacks_slot(rows) {
        return Ok(false);
    }
    if any_slot_from_nowhere(rows) {
        return Ok(false);
    }
    if any_child_lacks_slot(rows) {
        return Ok(false);
    }
    are_names_apart(alloc, rows)
}

/// The least property whose name one of lesser number has; `None` if there is no such property, as is known without a look if
/// `slots_are_owed`.
pub(crate) fn double_name<R: Rows>(rows: &R, slots_are_owed: bool) -> Option<PropId>
    // Parents and locations are objects or `#-1`, without loops, and each object's number was given.
    requires tree { IsTree (world_of (R.held rows.now).maps) }
    // `slots_are_owed` is true only if no name is double, no slot is strange and none is missing.
    requires hold { slots_are_owed ≡ true → SlotsHold (R.held rows.now).maps }
    ensures { IsLeastPassing (R.held rows.now).maps.props (is_double (R.held rows.now).maps) result }
{
    if slots_are_owed {
        return None;
    }
    first_bad::<PropRow, R, _>(rows, |id, row| is_double(rows, id, row))
}

/// The least slot that its object isn't owed; `None` if there is no such slot, as is known without a look if `slots_are_owed`.
pub(crate) fn strange_slot<R: Rows>(rows: &R, slots_are_owed: bool) -> Option<(ObjNo, PropId)>
    // Parents and locations are objects or `#-1`, without loops, and each object's number was given.
    requires tree { IsTree (world_of (R.held rows.now).maps) }
    // `slots_are_owed` is true only if no name is double, no slot is strange and none is missing.
    requires hold { slots_are_owed ≡ true → SlotsHold (R.held rows.now).maps }
    ensures { IsLeastPassing (R.held rows.now).maps.slots (λ key _. is_strange (R.held rows.now).maps key) result }
{
    if slots_are_owed {
        return None;
    }
    first_bad::<SlotRow, R, _>(rows, |key, _row| is_strange(rows, key))
}

/// The least slot that an object is owed and doesn't have; `None` if there is no such slot, as is known without a look if `slots_are_owed`.
pub(crate) fn missing_slot<R: Rows>(rows: &R, slots_are_owed: bool) -> Option<(ObjNo, PropId)>
    // Parents and locations are objects or `#-1`, without loops, and each object's number was given.
    requires tree { IsTree (world_of (R.held rows.now).maps) }
    // `slots_are_owed` is true only if no name is double, no slot is strange and none is missing.
    requires hold { slots_are_owed ≡ true → SlotsHold (R.held rows.now).maps }
    ensures { IsFirstMissing (R.held rows.now).maps result }
{
    if slots_are_owed {
        return None;
    }
    first_missing(rows)
}
