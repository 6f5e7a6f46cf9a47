//! Reading single values of a line.

ghost use Rattle.std.specs.Prelude.{◌≡◌, ◌≢◌, ◌≤◌, ◌<◌, ℕ, true, Bool, List, Option, Some, map, length, IfOk, IfErr};
ghost use Rattle.moo_value.specs.{declared.value.ObjNo.{ObjNo}, declared.value.Value.TheVariants.{Int, Obj, Str}};
ghost use Rattle.moo_world.specs.{Answers.{flag}, Arguments.{is_number, is_text}, Calls.{accept_value}, World.{accept_fits}};

use crate::fault::{LineFault, LineResult};
use crate::reason::DumpReason;
use moo_rows::ObjList;
use moo_value::{MooStr, ObjNo, Value};
use moo_world::MOST_ACCEPTED;
use std::alloc::{AllocError, Global};

/// The object that a value is. NoObject, with the word `what` for the value, if it is of another type.
pub(crate) fn object_of(value: &Value, what: &'static str) -> LineResult<ObjNo>
    ensures ok { IfOk result (λ x. value.now ≡ Obj x) }
    ensures fits { IfOk result (λ x. is_number x ≡ true) }
    // There is a fault only if the value isn't an object.
    ensures err { IfErr result (λ _. (x : ObjNo) → value.now ≢ Obj x) }
{
    match value {
        Value::Obj(ObjNo(number)) => Ok(ObjNo(*number)),
        _ => Err(LineFault::Unreadable(DumpReason::NoObject(what))),
    }
}

/// The string that a value is. NoText, with the word `what` for the value, if it is of another type.
pub(crate) fn text_of<'a>(value: &'a Value, what: &'static str) -> LineResult<&'a MooStr>
    ensures ok { IfOk result (λ text. value.now ≡ Str text.now) }
    ensures fits { IfOk result (λ text. is_text text.now ≡ true) }
    // There is a fault only if the value isn't a string.
    ensures err { IfErr result (λ _. (text : List ℕ) → value.now ≢ Str text) }
{
    match value {
        Value::Str(text) => {
            // The limits that its type keeps are known only of what was read.
            let _bytes = text.bytes();
            Ok(text)
        }
        _ => Err(LineFault::Unreadable(DumpReason::NoText(what))),
    }
}

/// The flag that a value is: 0 or 1. NoFlag, with the word `what` for the value, if it is another value.
pub(crate) fn flag_of(value: &Value, what: &'static str) -> LineResult<bool>
    ensures ok { IfOk result (λ holds. value.now ≡ flag holds) }
    // There is a fault only if the value is neither 0 nor 1.
    ensures err { IfErr result (λ _. (holds : Bool) → value.now ≢ flag holds) }
{
    match value {
        Value::Int(0) => Ok(false),
        Value::Int(1) => Ok(true),
        _ => Err(LineFault::Unreadable(DumpReason::NoFlag(what))),
    }
}

/// The objects of an accept list: at most 1,000 values, each an object. NoAcceptList or NoObject for others; OutOfMemory: memory ran out.
fn objects_of(alloc: Global, values: &[Value]) -> LineResult<ObjList>
    ensures ok { IfOk result (λ objects. values.now ≡ map Obj objects) }
    ensures fits { IfOk result (λ objects. accept_fits (Some objects) ≡ true) }
    // There is a fault, but for out of memory, only if the values aren't at most 1,000 objects.
    ensures err { IfErr result (λ fault. fault ≢ LineFault.OutOfMemory → (objects : List ObjNo) → length objects ≤ MOST_ACCEPTED →
        values.now ≢ map Obj objects) }
{
    if values.len() > MOST_ACCEPTED {
        return Err(LineFault::Unreadable(DumpReason::NoAcceptList));
    }
    let mut objects = Vec::new(alloc);
    for value in values {
        let object = object_of(value, "accepted object")?;
        objects.push(object).map_err(AllocError::from)?;
    }
    Ok(ObjList::from_vec(objects))
}

/// The accept list that a value is: a list of at most 1,000 objects, or `None` for 0. NoAcceptList or NoObject for others; OutOfMemory if
/// memory runs out.
pub(crate) fn accept_of(alloc: Global, value: &Value) -> LineResult<Option<ObjList>>
    ensures ok { IfOk result (λ accept. value.now ≡ accept_value accept) }
    ensures fits { IfOk result (λ accept. accept_fits accept ≡ true) }
    // There is a fault, but for out of memory, only if a dump writes the value of no accept list.
    ensures err { IfErr result (λ fault. fault ≢ LineFault.OutOfMemory → (accept : Option (List ObjNo)) → accept_fits accept ≡ true →
        value.now ≢ accept_value accept) }
{
    match value {
        Value::Int(0) => Ok(None),
        Value::List(list) => {
            let objects = objects_of(alloc, list.items())?;
            Ok(Some(objects))
        }
        _ => Err(LineFault::Unreadable(DumpReason::NoAcceptList)),
    }
}
