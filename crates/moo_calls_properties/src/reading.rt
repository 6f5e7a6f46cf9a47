//! Reading properties.

ghost use Rattle.std.specs.Prelude.{◌≡◌, [], ◌∷◌, IfOk};
ghost use Rattle.moo_value.specs.declared.value.Value.TheVariants.{Obj, Str};
ghost use Rattle.moo_rows.specs.Bits.{letters_of};
ghost use Rattle.moo_world.specs.{Answers.{list_of}, PropertyCalls.{get_property, properties, property_info}, Rows.{IsGood}};
ghost use Rattle.moo_world.specs.World.{property_names_of};
ghost use Rattle.moo_calls_shared.specs.Outcomes.{world_in, Answers};

use crate::slots::readable_slot;
use moo_calls_shared::{Fault, Reason, rights};
use moo_props::value_of;
use moo_rows::{Bits, PropId, Rows, SlotRow, each_defined};
use moo_tree::valid;
use moo_value::{MooStr, ObjNo, Value};
use moo_world::{list_of, text_list};
use std::alloc::{AllocError, Global};

/// `get(object, name)` of a name that isn't built in: the value that the object reads for its property. E_PROPNF if it
/// has no property of the name; E_PERM if the programmer may not read the object's own slot of it.
/// LambdaMOO Programmer's Manual, 'Operations on Properties'.
pub fn get_property<R: Rows>(
    rows: &R,
    alloc: Global,
    programmer: ObjNo,
    x: ObjNo,
    name: &MooStr,
) -> Result<Value, Fault>
    // The rows are good: sound rows of a well formed world, and petitions as they may be beside it.
    requires { IsGood (R.held rows.now).maps }
    // The answer, or the error, is that of the definition `get_property`.
    ensures comes { Answers (get_property (world_in (R.held rows.now)) programmer x name.now) (R.held rows.now) result }
{
    let found = readable_slot(rows, programmer, x, name)?;
    Ok(value_of(rows, x, found.id).copy(alloc)?)
}

/// The names of the properties that x defines, in the order of their definition. The only error is a lack of memory.
fn property_names_of<R: Rows>(rows: &R, alloc: Global, x: ObjNo) -> Result<Vec<MooStr>, AllocError>
    // The rows are good: sound rows of a well formed world, and petitions as they may be beside it.
    requires { IsGood (R.held rows.now).maps }
    ensures { IfOk result (λ names. names.items ≡ property_names_of (world_in (R.held rows.now)) x) }
{
    let mut names = Vec::new(alloc);
    for (_id, row) in each_defined(rows, x, PropId(0)) {
        names.push(row.name.copy(alloc)?)?;
    }
    Ok(names)
}

/// `properties(object)`: the names of the properties that the object itself defines, in the order of their definition.
/// E_INVARG if there is no such object; E_PERM if the programmer may not read it.
/// LambdaMOO Programmer's Manual, 'Operations on Properties'.
pub fn properties<R: Rows>(
    rows: &R,
    alloc: Global,
    programmer: ObjNo,
    x: ObjNo,
) -> Result<Value, Fault>
    // The rows are good: sound rows of a well formed world, and petitions as they may be beside it.
    requires { IsGood (R.held rows.now).maps }
    // The answer, or the error, is that of the definition `properties`.
    ensures comes { Answers (properties (world_in (R.held rows.now)) programmer x) (R.held rows.now) result }
{
    if !valid(rows, x) {
        return Err(Fault::Moo(Reason::NoObject(x)));
    }
    if !rights::may_read_object(rows, programmer, x) {
        return Err(Fault::Moo(Reason::NoObjectR(x)));
    }
    Ok(text_list(alloc, property_names_of(rows, alloc, x)?)?)
}

/// The letters of rights as a string. The only error is a lack of memory.
fn letters(alloc: Global, bits: Bits) -> Result<MooStr, AllocError>
    ensures { IfOk result (λ text. text ≡ letters_of bits) }
{
    let bytes = bits.letters().as_bytes().to_vec(alloc)?;
    Ok(MooStr::from_vec(bytes))
}

/// The list `{owner, perms}` of a slot. The only error is a lack of memory.
fn info_list(alloc: Global, slot: &SlotRow) -> Result<Value, AllocError>
    ensures { IfOk result (λ info. info ≡ list_of (Obj slot.now.owner ∷ Str (letters_of slot.now.bits) ∷ [])) }
{
    let perms = letters(alloc, slot.bits)?;
    let info = vec![in alloc; Value::Obj(slot.owner), Value::Str(perms)]?;
    Ok(list_of(info))
}

/// `property_info(object, name)`: the owner and the rights of the property on the object, `{owner, perms}`. E_INVARG if
/// there is no such object; E_PROPNF if it has no property of the name, as with a built-in name; E_PERM if the
/// programmer may not read the object's own slot of it.
/// LambdaMOO Programmer's Manual, 'Operations on Properties'.
pub fn property_info<R: Rows>(
    rows: &R,
    alloc: Global,
    programmer: ObjNo,
    x: ObjNo,
    name: &MooStr,
) -> Result<Value, Fault>
    // The rows are good: sound rows of a well formed world, and petitions as they may be beside it.
    requires { IsGood (R.held rows.now).maps }
    // The answer, or the error, is that of the definition `property_info`.
    ensures comes { Answers (property_info (world_in (R.held rows.now)) programmer x name.now) (R.held rows.now) result }
{
    if !valid(rows, x) {
        return Err(Fault::Moo(Reason::NoObject(x)));
    }
    let found = readable_slot(rows, programmer, x, name)?;
    Ok(info_list(alloc, found.slot)?)
}
