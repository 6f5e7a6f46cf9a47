//! What calls answer, as values.

ghost use Rattle.std.specs.Prelude.{◌≡◌, IfOk};
ghost use Rattle.moo_world.specs.{Answers.{flag, list_of, object_list, text_list}, Calls.{accept_value}};

use moo_rows::ObjList;
use moo_value::{MooStr, ObjNo, Value, ValueList};
use std::alloc::{AllocError, Global};

/// The most objects in an accept list.
pub const MOST_ACCEPTED: usize = 1000;

/// What a changing call other than `create` answers.
pub const ZERO: Value = Value::Int(0);

/// The value of a yes or no: the integer 1 for yes, 0 for no.
pub fn flag(holds: bool) -> Value
    ensures { result ≡ flag holds }
{
    Value::Int(if holds { 1 } else { 0 })
}

/// The value that is the list of these values. Takes no memory.
pub fn list_of(values: Vec<Value>) -> Value
    ensures { result ≡ list_of values.items }
{
    Value::List(ValueList::from_vec(values))
}

/// The value that is the list of these objects. The only error is a lack of memory.
pub fn object_list(alloc: Global, objects: &[ObjNo]) -> Result<Value, AllocError>
    ensures { IfOk result (λ v. v ≡ object_list objects.now) }
{
    let mut values = Vec::with_capacity(alloc, objects.len())?;
    for x in objects {
        values.push(Value::Obj(*x))?;
    }
    Ok(list_of(values))
}

/// The value that is the list of these strings. The only error is a lack of memory.
pub fn text_list(alloc: Global, texts: Vec<MooStr>) -> Result<Value, AllocError>
    ensures { IfOk result (λ v. v ≡ text_list texts.items) }
{
    let mut values = Vec::with_capacity(alloc, texts.len())?;
    for text in texts {
        values.push(Value::Str(text))?;
    }
    Ok(list_of(values))
}

/// An accept list, as `accept_list` answers it: the list of its objects, or 0 if there is no such list. The only error is a lack of
/// memory.
pub fn accept_value(alloc: Global, list: &Option<ObjList>) -> Result<Value, AllocError>
    ensures { IfOk result (λ v. v ≡ accept_value list.now) }
{
    match list {
        Some(list) => object_list(alloc, list.items()),
        None => Ok(ZERO),
    }
}
