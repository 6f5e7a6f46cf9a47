//! Accept lists, as calls are given them.

ghost use Rattle.std.specs.Prelude.{◌≡◌, IfOk};
ghost use Rattle.moo_world.specs.Arguments.{objects_among, object_and_accept};
ghost use Rattle.moo_calls_shared.specs.Outcomes.{GivenOrNot};

use crate::fault::Fault;
use moo_rows::ObjList;
use moo_value::{Code, ObjNo, Value};
use moo_world::Reason;
use std::alloc::{AllocError, Global};

/// The objects of a list of values, in order; `None` if a value isn't an object. The only error is a lack of memory.
fn objects_among(alloc: Global, values: &[Value]) -> Result<Option<ObjList>, AllocError>
    ensures { IfOk result (λ found. found ≡ objects_among values.now) }
{
    let mut found = Vec::new(alloc);
    for value in values {
        match value {
            Value::Obj(x) => found.push(*x)?,
            _ => return Ok(None),
        }
    }
    Ok(Some(ObjList::from_vec(found)))
}

/// What `set_accept` takes: an object, and a list of objects or 0 (`None`). E_ARGS unless there are two arguments; then E_TYPE for others.
pub fn object_and_accept(alloc: Global, args: &[Value]) -> Result<(ObjNo, Option<ObjList>), Fault>
    // What is read, or the error of the arguments: E_ARGS for their number, else E_TYPE; or memory ran out.
    ensures given { GivenOrNot (object_and_accept args.now) result }
{
    match args {
        [Value::Obj(x), Value::List(list)] => match objects_among(alloc, list.items())? {
            Some(objects) => Ok((*x, Some(objects))),
            None => Err(Fault::Moo(Reason::Given(Code::Type))),
        },
        [Value::Obj(x), Value::Int(n)] => {
            if *n == 0 {
                Ok((*x, None))
            } else {
                Err(Fault::Moo(Reason::Given(Code::Type)))
            }
        }
        [_, _] => Err(Fault::Moo(Reason::Given(Code::Type))),
        _ => Err(Fault::Moo(Reason::Given(Code::Arguments))),
    }
}
