//! Setting built-in properties.

ghost use Rattle.std.specs.Prelude.{◌≡◌, true, None, Some, if◌then◌else◌};
ghost use Rattle.moo_world.specs.{Arguments.{fits}, declared.built_in.BuiltIn.TheVariants.{Name}};
ghost use Rattle.moo_world.specs.PropertyCalls.{change_of, may_set, owner_given, owner_is_object, set_built_in, unset_reason};
ghost use Rattle.moo_world.specs.{Rows.{IsGood}, World.{is_object}};
ghost use Rattle.moo_calls_shared.specs.Outcomes.{world_in, TakenOrNot, Does};

use moo_calls_shared::{Fault, Reason, change_row, rights};
use moo_rows::Rows;
use moo_tree::valid;
use moo_value::{ObjNo, Value};
use moo_world::{BuiltIn, Change, ZERO};
use std::alloc::Global;

/// The change of an object's row that sets a built-in property to a value. E_PERM for `location` and `contents`, which `set`
/// doesn't write; E_TYPE for a `name` that isn't a string and for an `owner` that isn't an object. The others are flags, set to
/// the truth of any value. OutOfMemory if memory ran out.
fn change_of(alloc: Global, field: BuiltIn, value: &Value) -> Result<Change, Fault>
    ensures taken { TakenOrNot (change_of field value.now) result }
{
    match (field, value) {
        (BuiltIn::Location | BuiltIn::Contents, _) => Err(Fault::Moo(Reason::NeverSet)),
        (BuiltIn::Name, Value::Str(name)) => Ok(Change::Name(name.copy(alloc)?)),
        (BuiltIn::Owner, Value::Obj(owner)) => Ok(Change::Owner(*owner)),
        (BuiltIn::Name | BuiltIn::Owner, _) => Err(Fault::Moo(Reason::NotTaken)),
        (BuiltIn::Programmer, _) => Ok(Change::Programmer(value.is_true())),
        (BuiltIn::Wizard, _) => Ok(Change::Wizard(value.is_true())),
        (BuiltIn::R, _) => Ok(Change::Readable(value.is_true())),
        (BuiltIn::W, _) => Ok(Change::Writable(value.is_true())),
        (BuiltIn::F, _) => Ok(Change::Fertile(value.is_true())),
    }
}

/// Whether the programmer may set a built-in property of the object: `name` if it may name the object, `r`, `w` and `f`
/// if it controls it, and the others if it is a wizard.
fn may_set<R: Rows>(rows: &R, programmer: ObjNo, x: ObjNo, field: BuiltIn) -> bool
    ensures { result ≡ may_set (world_in (R.held rows.now)) programmer x field }
{
    match field {
        BuiltIn::Name => rights::may_set_name(rows, programmer, x),
        BuiltIn::R | BuiltIn::W | BuiltIn::F => rights::controls(rows, programmer, x),
        _ => rights::is_wizard(rows, programmer),
    }
}

/// Why the programmer may not name the object: it is a player, whom only a wizard names, or the programmer doesn't control it.
fn unset_reason_of_name<R: Rows>(rows: &R, x: ObjNo) -> Reason
    ensures { result ≡ unset_reason (world_in (R.held rows.now)) x Name }
{
    match rows.object(x) {
        Some(row) if row.player => Reason::NamesPlayer(x),
        _ => Reason::NotControlled(x),
    }
}

/// Why the programmer may not set a built-in property of the object: it may not name it, doesn't control it, or isn't a wizard.
fn unset_reason<R: Rows>(rows: &R, x: ObjNo, field: BuiltIn) -> Reason
    ensures { result ≡ unset_reason (world_in (R.held rows.now)) x field }
{
    match field {
        BuiltIn::Name => unset_reason_of_name(rows, x),
        BuiltIn::R | BuiltIn::W | BuiltIn::F => Reason::NotControlled(x),
        _ => Reason::NoWizard,
    }
}

/// The owner that the change gives, if it isn't an object; `None` if it is one, or if the change gives no owner.
fn missing_owner<R: Rows>(rows: &R, change: &Change) -> Option<ObjNo>
    ensures { result ≡ (if owner_is_object (world_in (R.held rows.now)) change.now then None else Some (owner_given change.now)) }
{
    match change {
        Change::Owner(owner) if !valid(rows, *owner) => Some(*owner),
        _ => None,
    }
}

/// Sets a built-in property of an object, and answers 0. E_PERM for `location` and `contents`; E_TYPE for a `name` that is
/// not a string and an `owner` that isn't an object; E_PERM if the programmer may not set it: a wizard may, and the object's
/// owner may set `r`, `w`, `f` and, unless the object is a player, `name`; E_INVARG if no object has the new owner's number.
///
/// LambdaMOO Programmer's Manual, 'Properties on Objects' in the chapter on the database.
pub fn set_built_in<R: Rows>(
    rows: &mut R,
    alloc: Global,
    programmer: ObjNo,
    x: ObjNo,
    field: BuiltIn,
    value: &Value,
) -> Result<Value, Fault>
    // The rows are good: sound rows of a well formed world, and petitions as they may be beside it.
    requires good { IsGood (R.held rows.old).maps }
    // x is an object.
    requires there { is_object (world_in (R.held rows.old)) x ≡ true }
    // The value nests at most 32 deep, and its numbers and texts are within their limits.
    requires fit { fits value.now ≡ true }
    // It does what the definition `set_built_in` says. If it is done, the rows are good, petitions and the count of batches stay, and what
    // stays keeps its number (`Does`). At its errors nothing changes; out of memory the rows may be half changed.
    ensures { Does (set_built_in (world_in (R.held rows.old)) programmer x field value.now) (R.held rows.old) (R.held rows.new) result }
{
    let change = change_of(alloc, field, value)?;
    if !may_set(rows, programmer, x, field) {
        return Err(Fault::Moo(unset_reason(rows, x, field)));
    }
    if let Some(owner) = missing_owner(rows, &change) {
        return Err(Fault::Moo(Reason::NoObject(owner)));
    }
    change_row(rows, alloc, x, change)?;
    Ok(ZERO)
}
