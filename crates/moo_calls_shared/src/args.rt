//! What a call is given: objects, names and values. A wrong number of arguments is E_ARGS, and a wrong type E_TYPE.

ghost use Rattle.std.specs.{Prelude.{◌≡◌, true, IfOk, IfErr, Ok, Err}, List.{list_all}};
ghost use Rattle.moo_world.specs.Arguments.{fits, no_values, one_object, two_objects, object_and_text, object_and_value};
ghost use Rattle.moo_world.specs.Arguments.{object_text_and_value, parent_and_owner};

use moo_value::{Code, MooStr, ObjNo, Value};

/// Tests the arguments of a call that takes none: E_ARGS if there are any.
pub fn no_values(args: &[Value]) -> Result<(), Code>
    ensures { result ≡ no_values args.now }
{
    if args.is_empty() {
        Ok(())
    } else {
        Err(Code::Arguments)
    }
}

/// The object that a call takes as its one argument. E_ARGS unless there is one argument; E_TYPE if it isn't an object.
pub fn one_object(args: &[Value]) -> Result<ObjNo, Code>
    ensures { result ≡ one_object args.now }
{
    match args {
        [Value::Obj(x)] => Ok(*x),
        [_] => Err(Code::Type),
        _ => Err(Code::Arguments),
    }
}

/// The two objects that a call takes. E_ARGS unless there are two arguments; E_TYPE if one of them isn't an object.
pub fn two_objects(args: &[Value]) -> Result<(ObjNo, ObjNo), Code>
    ensures { result ≡ two_objects args.now }
{
    match args {
        [Value::Obj(x), Value::Obj(y)] => Ok((*x, *y)),
        [_, _] => Err(Code::Type),
        _ => Err(Code::Arguments),
    }
}

/// The object and the name that a call takes. E_ARGS unless there are two arguments; E_TYPE if they aren't an object and a string.
pub fn object_and_text(args: &[Value]) -> Result<(ObjNo, &MooStr), Code>
    // The answer is the object and the string of the arguments.
    ensures ok { IfOk result (λ p. object_and_text args.now ≡ Ok (p.0, p.1.now)) }
    // The error is that of the arguments: E_ARGS for their number, else E_TYPE.
    ensures err { IfErr result (λ code. object_and_text args.now ≡ Err code) }
{
    match args {
        [Value::Obj(x), Value::Str(name)] => Ok((*x, name)),
        [_, _] => Err(Code::Type),
        _ => Err(Code::Arguments),
    }
}

/// The object and the value that a call takes. E_ARGS unless there are two arguments; E_TYPE if the first isn't an object.
pub fn object_and_value(args: &[Value]) -> Result<(ObjNo, &Value), Code>
    // The answer is the object and the value of the arguments.
    ensures ok { IfOk result (λ p. object_and_value args.now ≡ Ok (p.0, p.1.now)) }
    // The error is that of the arguments: E_ARGS for their number, else E_TYPE.
    ensures err { IfErr result (λ code. object_and_value args.now ≡ Err code) }
{
    match args {
        [Value::Obj(x), value] => Ok((*x, value)),
        [_, _] => Err(Code::Type),
        _ => Err(Code::Arguments),
    }
}

/// The object, the name and the value that a call takes. E_ARGS unless there are three arguments; E_TYPE if the first two are of other
/// types.
pub fn object_text_and_value(args: &[Value]) -> Result<(ObjNo, &MooStr, &Value), Code>
    // Each argument nests at most 32 deep, and its numbers and texts are within their limits.
    requires { list_all fits args.now ≡ true }
    // The answer is the object, the string and the value of the arguments.
    ensures ok { IfOk result (λ p. object_text_and_value args.now ≡ Ok (p.0, p.1.now, p.2.now)) }
    // The error is that of the arguments: E_ARGS for their number, else E_TYPE.
    ensures err { IfErr result (λ code. object_text_and_value args.now ≡ Err code) }
    // The value nests at most 32 deep too, and its numbers and texts are within their limits.
    ensures fit { IfOk result (λ p. fits p.2.now ≡ true) }
{
    match args {
        [Value::Obj(x), Value::Str(name), value] => Ok((*x, name, value)),
        [_, _, _] => Err(Code::Type),
        _ => Err(Code::Arguments),
    }
}

/// The parent and the owner that `create` takes; the owner is the programmer if none is given. E_ARGS unless there are one or two
/// arguments; E_TYPE if one of them isn't an object.
pub fn parent_and_owner(args: &[Value], programmer: ObjNo) -> Result<(ObjNo, ObjNo), Code>
    ensures { result ≡ parent_and_owner programmer args.now }
{
    match args {
        [Value::Obj(parent)] => Ok((*parent, programmer)),
        [Value::Obj(parent), Value::Obj(owner)] => Ok((*parent, *owner)),
        [_] | [_, _] => Err(Code::Type),
        _ => Err(Code::Arguments),
    }
}
