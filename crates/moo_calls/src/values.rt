//! Reading and setting properties, built-in ones and others.

ghost use Rattle.std.specs.Prelude.{◌≡◌, true};
ghost use Rattle.moo_calls_shared.specs.Outcomes.{world_in, Answers, Does};
ghost use Rattle.moo_world.specs.{Arguments.{fits}, PropertyCalls.{get, set}, Rows.{IsGood}};

use crate::fields::field_of;
use crate::setting::set_built_in;
use moo_calls_properties::{get_property, set_property};
use moo_calls_shared::{Fault, Reason};
use moo_rows::Rows;
use moo_tree::valid;
use moo_value::{MooStr, ObjNo, Value};
use moo_world::BuiltIn;
use std::alloc::Global;

/// `get(object, name)`: the value of a property, a built-in one or another. E_INVIND if there is no such object; E_PROPNF if
/// it has no property of the name; E_PERM if the programmer may not read it, which everybody may of a built-in one.
/// LambdaMOO Programmer's Manual, 'Getting and Setting the Values of Properties'.
pub fn get<R: Rows>(
    rows: &R,
    alloc: Global,
    programmer: ObjNo,
    x: ObjNo,
    name: &MooStr,
) -> Result<Value, Fault>
    // The rows are good: sound rows of a well formed world, and petitions as they may be beside it.
    requires { IsGood (R.held rows.now).maps }
    // The answer, or the error, is that of the definition `get`.
    ensures comes { Answers (get (world_in (R.held rows.now)) programmer x name.now) (R.held rows.now) result }
{
    if !valid(rows, x) {
        return Err(Fault::Moo(Reason::NoTarget(x)));
    }
    match BuiltIn::of_name(name) {
        Some(field) => field_of(rows, alloc, x, field),
        None => get_property(rows, alloc, programmer, x, name),
    }
}

/// `set(object, name, value)`: gives a property a value, a built-in one or another, and answers 0. E_INVIND if there is no
/// such object, and then the errors of `set_built_in`, or of `set_property` if the name isn't built in.
/// LambdaMOO Programmer's Manual, 'Getting and Setting the Values of Properties'.
pub fn set<R: Rows>(
    rows: &mut R,
    alloc: Global,
    programmer: ObjNo,
    x: ObjNo,
    name: &MooStr,
    value: &Value,
) -> Result<Value, Fault>
    // The rows are good: sound rows of a well formed world, and petitions as they may be beside it.
    requires good { IsGood (R.held rows.old).maps }
    // The value nests at most 32 deep, and its numbers and texts are within their limits.
    requires fit { fits value.now ≡ true }
    // It does what the definition `set` says. If it is done, the rows are good, petitions and the count of batches stay, and what stays
    // keeps its number (`Does`). At its errors nothing changes; out of memory the rows may be half changed.
    ensures { Does (set (world_in (R.held rows.old)) programmer x name.now value.now) (R.held rows.old) (R.held rows.new) result }
{
    if !valid(rows, x) {
        return Err(Fault::Moo(Reason::NoTarget(x)));
    }
    match BuiltIn::of_name(name) {
        Some(field) => set_built_in(rows, alloc, programmer, x, field, value),
        None => set_property(rows, alloc, programmer, x, name, value),
    }
}
