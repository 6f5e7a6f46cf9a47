//! The calls on properties, each made with a list of arguments. E_ARGS is for another number of arguments, and then E_TYPE for one of
//! another type. Each has a function of its own, since a proof grows with what a function holds where it may end early.

ghost use Rattle.std.specs.{Prelude.{◌≡◌, true}, List.{list_all}};
ghost use Rattle.moo_calls_shared.specs.Outcomes.{world_in, Answers, Does};
ghost use Rattle.moo_world.specs.{Arguments.{fits}, Rows.{IsGood}, Calls.{named_call}};
ghost use Rattle.moo_world.specs.declared.name.CallName.TheVariants.{Get, Properties, PropertyInfo, IsClearProperty, Set, AddProperty};
ghost use Rattle.moo_world.specs.declared.name.CallName.TheVariants.{DeleteProperty, SetPropertyInfo, ClearProperty};

use crate::values;
use moo_calls_shared::{
    Fault, new_property, new_property_info, object_and_text, object_text_and_value, one_object,
};
use moo_rows::Rows;
use moo_value::{ObjNo, Value};
use std::alloc::Global;

/// Makes the call `get` with an object and a name. E_ARGS and E_TYPE for others, then the errors of the call.
pub(crate) fn get_given<R: Rows>(
    rows: &R,
    alloc: Global,
    programmer: ObjNo,
    args: &[Value],
) -> Result<Value, Fault>
    // The rows are good: sound rows of a well formed world, and petitions as they may be beside it.
    requires { IsGood (R.held rows.now).maps }
    // The answer, or the error, is what `named_call` says of `Get`.
    ensures comes { Answers (named_call (world_in (R.held rows.now)) programmer Get args.now) (R.held rows.now) result }
{
    let (x, property) = object_and_text(args)?;
    values::get(rows, alloc, programmer, x, property)
}

/// Makes the call `properties` with an object. E_ARGS and E_TYPE for others, then the errors of the call.
pub(crate) fn properties_given<R: Rows>(
    rows: &R,
    alloc: Global,
    programmer: ObjNo,
    args: &[Value],
) -> Result<Value, Fault>
    // The rows are good: sound rows of a well formed world, and petitions as they may be beside it.
    requires { IsGood (R.held rows.now).maps }
    // The answer, or the error, is what `named_call` says of `Properties`.
    ensures comes { Answers (named_call (world_in (R.held rows.now)) programmer Properties args.now) (R.held rows.now) result }
{
    moo_calls_properties::properties(rows, alloc, programmer, one_object(args)?)
}

/// Makes the call `property_info` with an object and a name. E_ARGS and E_TYPE for others, then the errors of the call.
pub(crate) fn property_info_given<R: Rows>(
    rows: &R,
    alloc: Global,
    programmer: ObjNo,
    args: &[Value],
) -> Result<Value, Fault>
    // The rows are good: sound rows of a well formed world, and petitions as they may be beside it.
    requires { IsGood (R.held rows.now).maps }
    // The answer, or the error, is what `named_call` says of `PropertyInfo`.
    ensures comes { Answers (named_call (world_in (R.held rows.now)) programmer PropertyInfo args.now) (R.held rows.now) result }
{
    let (x, property) = object_and_text(args)?;
    moo_calls_properties::property_info(rows, alloc, programmer, x, property)
}

/// Makes the call `is_clear_property` with an object and a name. E_ARGS and E_TYPE for others, then the errors of the call.
pub(crate) fn is_clear_property_given<R: Rows>(
    rows: &R,
    programmer: ObjNo,
    args: &[Value],
) -> Result<Value, Fault>
    // The rows are good: sound rows of a well formed world, and petitions as they may be beside it.
    requires { IsGood (R.held rows.now).maps }
    // The answer, or the error, is what `named_call` says of `IsClearProperty`.
    ensures comes { Answers (named_call (world_in (R.held rows.now)) programmer IsClearProperty args.now) (R.held rows.now) result }
{
    let (x, property) = object_and_text(args)?;
    moo_calls_properties::is_clear_property(rows, programmer, x, property)
}

/// Makes the call `set` with an object, a name and a value. E_ARGS and E_TYPE for others, then the errors of the call.
pub(crate) fn set_given<R: Rows>(
    rows: &mut R,
    alloc: Global,
    programmer: ObjNo,
    args: &[Value],
) -> Result<Value, Fault>
    // The rows are good: sound rows of a well formed world, and petitions as they may be beside it.
    requires good { IsGood (R.held rows.old).maps }
    // Each argument nests at most 32 deep, and its numbers and texts are within their limits.
    requires fit { list_all fits args.now ≡ true }
    // It does what `named_call` says of `Set`. If it is done, the rows are good, petitions and the count of batches stay, and what stays
    // keeps its number (`Does`). At its errors nothing changes; out of memory the rows may be half changed.
    ensures { Does (named_call (world_in (R.held rows.old)) programmer Set args.now) (R.held rows.old) (R.held rows.new) result }
{
    let (x, property, value) = object_text_and_value(args)?;
    values::set(rows, alloc, programmer, x, property, value)
}

/// Makes the call `add_property` with an object, a name, a value and `{owner, perms}`. E_ARGS and E_TYPE for others, then its errors.
pub(crate) fn add_property_given<R: Rows>(
    rows: &mut R,
    alloc: Global,
    programmer: ObjNo,
    args: &[Value],
) -> Result<Value, Fault>
    // The rows are good: sound rows of a well formed world, and petitions as they may be beside it.
    requires good { IsGood (R.held rows.old).maps }
    // Each argument nests at most 32 deep, and its numbers and texts are within their limits.
    requires fit { list_all fits args.now ≡ true }
    // It does what `named_call` says of `AddProperty`. If it is done, the rows are good, petitions and the count of batches stay, and what
    // stays keeps its number (`Does`). At its errors nothing changes; out of memory the rows may be half changed.
    ensures { Does (named_call (world_in (R.held rows.old)) programmer AddProperty args.now) (R.held rows.old) (R.held rows.new) result }
{
    let new = new_property(args)?;
    moo_calls_properties::add_property(
        rows, alloc, programmer, new.object, new.name, new.value, new.info,
    )
}

/// Makes the call `delete_property` with an object and a name. E_ARGS and E_TYPE for others, then the errors of the call.
pub(crate) fn delete_property_given<R: Rows>(
    rows: &mut R,
    alloc: Global,
    programmer: ObjNo,
    args: &[Value],
) -> Result<Value, Fault>
    // The rows are good: sound rows of a well formed world, and petitions as they may be beside it.
    requires { IsGood (R.held rows.old).maps }
    // It does what `named_call` says of `DeleteProperty`. If it is done, the rows are good, petitions and the count of batches stay, and
    // what stays keeps its number (`Does`). At its errors nothing changes; out of memory the rows may be half changed.
    ensures { Does (named_call (world_in (R.held rows.old)) programmer DeleteProperty args.now)
        (R.held rows.old) (R.held rows.new) result }
{
    let (x, property) = object_and_text(args)?;
    moo_calls_properties::delete_property(rows, alloc, programmer, x, property)
}

/// Makes the call `set_property_info` with an object, a name, and `{owner, perms}` or `{owner, perms, new-name}`. E_ARGS and E_TYPE for
/// others, then the errors of the call.
pub(crate) fn set_property_info_given<R: Rows>(
    rows: &mut R,
    alloc: Global,
    programmer: ObjNo,
    args: &[Value],
) -> Result<Value, Fault>
    // The rows are good: sound rows of a well formed world, and petitions as they may be beside it.
    requires { IsGood (R.held rows.old).maps }
    // It does what `named_call` says of `SetPropertyInfo`. If it is done, the rows are good, petitions and the count of batches stay, and
    // what stays keeps its number (`Does`). At its errors nothing changes; out of memory the rows may be half changed.
    ensures { Does (named_call (world_in (R.held rows.old)) programmer SetPropertyInfo args.now)
        (R.held rows.old) (R.held rows.new) result }
{
    let new = new_property_info(args)?;
    moo_calls_properties::set_property_info(
        rows,
        alloc,
        programmer,
        new.object,
        new.name,
        new.info,
        new.new_name,
    )
}

/// Makes the call `clear_property` with an object and a name. E_ARGS and E_TYPE for others, then the errors of the call.
pub(crate) fn clear_property_given<R: Rows>(
    rows: &mut R,
    programmer: ObjNo,
    args: &[Value],
) -> Result<Value, Fault>
    // The rows are good: sound rows of a well formed world, and petitions as they may be beside it.
    requires { IsGood (R.held rows.old).maps }
    // It does what `named_call` says of `ClearProperty`. If it is done, the rows are good, petitions and the count of batches stay, and
    // what stays keeps its number (`Does`). At its errors nothing changes; out of memory the rows may be half changed.
    ensures { Does (named_call (world_in (R.held rows.old)) programmer ClearProperty args.now) (R.held rows.old) (R.held rows.new) result }
{
    let (x, property) = object_and_text(args)?;
    moo_calls_properties::clear_property(rows, programmer, x, property)
}
