//! The names among which a call may have meant one.

ghost use Rattle.std.specs.{Prelude.{◌≡◌, ◌++◌, ◌≤◌, length, option_map, take, IfOk}, List.{flat_map}};
ghost use Rattle.moo_world.specs.{Rows.{IsGood, world_of}, World.{chain, property_names_of}};
ghost use Rattle.moo_disclosure.specs.Disclosed.{lacks_property, names_listed, names_meant, objects_searched, property_given};

use moo_calls_shared::rights::may_read_object;
use moo_props::find;
use moo_rows::{PropId, Rows, each_defined};
use moo_tree::chain;
use moo_value::{MooStr, ObjNo, Value};
use moo_world::{CallName, Reason};
use std::alloc::{AllocError, Global};

/// The most names of properties that are looked at for one refusal, from the object up its ancestors: a refusal is told in a bounded time
/// however many properties there are.
pub(crate) const MOST_LOOKED_AT: usize = 200;

/// Adds the names of the properties that an object defines, in their order, until there are 200. The only error is a lack of memory.
fn add_names<R: Rows>(
    alloc: Global,
    rows: &R,
    x: ObjNo,
    names: &mut Vec<MooStr>,
) -> Result<(), AllocError>
    // The rows are good: sound rows of a well formed world, and petitions as they may be beside it.
    requires good { IsGood (R.held rows.now).maps }
    // There are at most 200 names yet.
    requires room { length names.old.items ≤ 200 }
    ensures { IfOk result (λ _. names.new.items
        ≡ take 200 (names.old.items ++ property_names_of (world_of (R.held rows.now).maps) x)) }
{
    for (_id, row) in each_defined(rows, x, PropId(0)) {
        if names.len() == MOST_LOOKED_AT {
            return Ok(());
        }
        names.push(row.name.copy(alloc)?)?;
    }
    Ok(())
}

/// Adds the names that the programmer may list on an object, in their order, until there are 200. The only error is a lack of memory.
fn add_listed<R: Rows>(
    alloc: Global,
    rows: &R,
    programmer: ObjNo,
    x: ObjNo,
    names: &mut Vec<MooStr>,
) -> Result<(), AllocError>
    // The rows are good: sound rows of a well formed world, and petitions as they may be beside it.
    requires good { IsGood (R.held rows.now).maps }
    // There are at most 200 names yet.
    requires room { length names.old.items ≤ 200 }
    ensures { IfOk result (λ _. names.new.items
        ≡ take 200 (names.old.items ++ names_listed (world_of (R.held rows.now).maps) programmer x)) }
{
    if may_read_object(rows, programmer, x) {
        add_names(alloc, rows, x, names)?;
    }
    Ok(())
}

/// The first 200 names that the programmer may list on a list of objects, in order. The only error is a lack of memory.
fn names_on<R: Rows>(
    alloc: Global,
    rows: &R,
    programmer: ObjNo,
    objects: &[ObjNo],
) -> Result<Vec<MooStr>, AllocError>
    // The rows are good: sound rows of a well formed world, and petitions as they may be beside it.
    requires { IsGood (R.held rows.now).maps }
    ensures { IfOk result (λ names. names.items
        ≡ take 200 (flat_map (names_listed (world_of (R.held rows.now).maps) programmer) objects.now)) }
{
    let mut names = Vec::new(alloc);
    for object in objects {
        add_listed(alloc, rows, programmer, *object, &mut names)?;
    }
    Ok(names)
}

/// The objects on which the property of a call may be defined: the object and its ancestors for a call that reads, sets or clears a
/// property, the object alone for `delete_property` and `set_property_info`, and none for another call. The only error is a lack of memory.
fn objects_searched<R: Rows>(
    alloc: Global,
    rows: &R,
    call: CallName,
    x: ObjNo,
) -> Result<Vec<ObjNo>, AllocError>
    // The rows are good: sound rows of a well formed world, and petitions as they may be beside it.
    requires { IsGood (R.held rows.now).maps }
    ensures { IfOk result (λ objects. objects.items ≡ objects_searched call (chain (world_of (R.held rows.now).maps) x)) }
{
    match call {
        CallName::Get
        | CallName::Set
        | CallName::PropertyInfo
        | CallName::ClearProperty
        | CallName::IsClearProperty => chain(alloc, rows, x),
        CallName::DeleteProperty | CallName::SetPropertyInfo => {
            let mut objects = chain(alloc, rows, x)?;
            objects.truncate(1);
            Ok(objects)
        }
        _ => Ok(Vec::new(alloc)),
    }
}

/// The object and the name that are a call's first two arguments; `None` if they are others.
fn property_given(args: &[Value]) -> Option<(ObjNo, &MooStr)>
    ensures { option_map (λ given. (given.0, given.1.now)) result ≡ property_given args.now }
{
    match args {
        [Value::Obj(x), Value::Str(name), ..] => Some((*x, name)),
        _ => None,
    }
}

/// Whether the reason is that the object hasn't, or doesn't define, a property of the name that the call gives.
fn lacks_property(reason: Reason) -> bool
    ensures { result ≡ lacks_property reason }
{
    matches!(
        reason,
        Reason::NoProperty(_) | Reason::NotDefined(_) | Reason::NotRenamed(_)
    )
}

/// The names among which a refused call may have meant one: the first 200 that its programmer may list where the call looks. No names if it
/// isn't refused for the want of a property, or if the object has a property of the name given. The only error is a lack of memory.
pub(crate) fn names_meant<R: Rows>(
    alloc: Global,
    rows: &R,
    programmer: ObjNo,
    call: CallName,
    args: &[Value],
    reason: Reason,
) -> Result<Vec<MooStr>, AllocError>
    // The rows are good: sound rows of a well formed world, and petitions as they may be beside it.
    requires { IsGood (R.held rows.now).maps }
    ensures { IfOk result (λ names. names.items ≡ names_meant (world_of (R.held rows.now).maps) programmer call args.now reason) }
{
    if !lacks_property(reason) {
        return Ok(Vec::new(alloc));
    }
    let Some((x, name)) = property_given(args) else {
        return Ok(Vec::new(alloc));
    };
    if find(rows, x, name).is_some() {
        return Ok(Vec::new(alloc));
    }
    let objects = objects_searched(alloc, rows, call, x)?;
    names_on(alloc, rows, programmer, &objects)
}
