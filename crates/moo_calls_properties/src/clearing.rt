//! Clear properties, which have no value of their own.

ghost use Rattle.std.specs.Prelude.{◌≡◌};
ghost use Rattle.moo_world.specs.{PropertyCalls.{clear_property, is_clear, is_clear_property}, Rows.{IsGood}};
ghost use Rattle.moo_calls_shared.specs.Outcomes.{world_in, Answers, Does};

use crate::slots::{readable_slot, writable_slot};
use moo_calls_shared::{Fault, Reason};
use moo_props::clear;
use moo_rows::{Rows, SlotState};
use moo_tree::valid;
use moo_value::{MooStr, ObjNo, Value};
use moo_world::{ZERO, flag};

/// Whether a slot has no value of its own, so that the object reads its parent's.
fn is_clear(state: &SlotState) -> bool
    ensures { result ≡ is_clear state.now }
{
    match state {
        SlotState::Clear => true,
        SlotState::Set(_) => false,
    }
}

/// `is_clear_property(object, name)`: 1 if the property is clear on the object, so that it reads its parent's value, else
/// 0, as always on the object that defines it. E_INVARG if there is no such object; E_PROPNF if it has no property of the
/// name; E_PERM if the programmer may not read the object's own slot of it.
/// LambdaMOO Programmer's Manual, 'Operations on Properties'.
pub fn is_clear_property<R: Rows>(
    rows: &R,
    programmer: ObjNo,
    x: ObjNo,
    name: &MooStr,
) -> Result<Value, Fault>
    // The rows are good: sound rows of a well formed world, and petitions as they may be beside it.
    requires { IsGood (R.held rows.now).maps }
    // The answer, or the error, is that of the definition `is_clear_property`.
    ensures comes { Answers (is_clear_property (world_in (R.held rows.now)) programmer x name.now) (R.held rows.now) result }
{
    if !valid(rows, x) {
        return Err(Fault::Moo(Reason::NoObject(x)));
    }
    let found = readable_slot(rows, programmer, x, name)?;
    Ok(flag(is_clear(&found.slot.state)))
}

/// `clear_property(object, name)`: the property has no value of its own on the object from now on, so that the object reads
/// what its parent reads; the answer is 0. E_INVARG if there is no such object; E_PROPNF if it has no property of the name;
/// E_PERM if the programmer may not write the object's own slot of it; E_INVARG if the object itself defines it.
/// LambdaMOO Programmer's Manual, 'Operations on Properties'.
pub fn clear_property<R: Rows>(
    rows: &mut R,
    programmer: ObjNo,
    x: ObjNo,
    name: &MooStr,
) -> Result<Value, Fault>
    // The rows are good: sound rows of a well formed world, and petitions as they may be beside it.
    requires { IsGood (R.held rows.old).maps }
    // It does what the definition `clear_property` says. If it is done, the rows are good, petitions and the count of batches stay, and
    // what stays keeps its number (`Does`). At its errors nothing changes; out of memory the rows may be half changed.
    ensures { Does (clear_property (world_in (R.held rows.old)) programmer x name.now) (R.held rows.old) (R.held rows.new) result }
{
    if !valid(rows, x) {
        return Err(Fault::Moo(Reason::NoObject(x)));
    }
    let found = writable_slot(rows, programmer, x, name)?;
    if found.definer == x {
        return Err(Fault::Moo(Reason::NotInherited(x)));
    }
    let id = found.id;
    clear(rows, x, id)?;
    Ok(ZERO)
}
