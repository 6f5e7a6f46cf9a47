//! What a call is given: owners, rights, names and arguments in lists. A list of another length, or with something of another
//! type in it, is E_TYPE.

ghost use Rattle.std.specs.{List.{list_all}, Prelude.{◌≡◌, true, IfOk, IfErr, Ok, Err, option_map}};
ghost use Rattle.moo_world.specs.Arguments.{fits, info_in, info_and_name_in, new_property, new_property_info};
ghost use Rattle.moo_calls_shared.specs.Shown.{info_shown};

use moo_value::{Code, MooStr, ObjNo, Value};

/// The owner and the letters of the rights that a call gives a property or a verb.
#[derive(Clone, Copy)]
pub struct Info<'a> {
    pub owner: ObjNo,
    pub perms: &'a MooStr,
}

/// The owner and the letters of `{owner, perms}`; `None` for another number of values, or for values of other types.
fn info_in(values: &[Value]) -> Option<Info<'_>>
    ensures { option_map info_shown result ≡ info_in values.now }
{
    match values {
        [Value::Obj(owner), Value::Str(perms)] => Some(Info {
            owner: *owner,
            perms,
        }),
        _ => None,
    }
}

/// What `add_property` takes: an object, a name, a value and `{owner, perms}`.
#[derive(Clone, Copy)]
pub struct NewProperty<'a> {
    pub object: ObjNo,
    pub name: &'a MooStr,
    pub value: &'a Value,
    pub info: Info<'a>,
}

/// What `add_property` takes. E_ARGS unless there are four arguments; E_TYPE if they aren't an object, a string, a value and
/// `{owner, perms}`.
pub fn new_property(args: &[Value]) -> Result<NewProperty<'_>, Code>
    // Each argument nests at most 32 deep, and its numbers and texts are within their limits.
    requires { list_all fits args.now ≡ true }
    // The answer is the object, the name, the value, and the owner and the letters of the arguments.
    ensures ok { IfOk result (λ p. new_property args.now ≡ Ok (p.object, (p.name.now, p.value.now, info_shown p.info))) }
    // The error is that of the arguments: E_ARGS for their number, else E_TYPE.
    ensures err { IfErr result (λ code. new_property args.now ≡ Err code) }
    // The value nests at most 32 deep too, and its numbers and texts are within their limits.
    ensures fit { IfOk result (λ p. fits p.value.now ≡ true) }
{
    match args {
        [
            Value::Obj(object),
            Value::Str(name),
            value,
            Value::List(list),
        ] => match info_in(list.items()) {
            Some(info) => Ok(NewProperty {
                object: *object,
                name,
                value,
                info,
            }),
            None => Err(Code::Type),
        },
        [_, _, _, _] => Err(Code::Type),
        _ => Err(Code::Arguments),
    }
}

/// The owner, the letters and the new name of `{owner, perms}` or `{owner, perms, new-name}`; `None` for another number of values, or for
/// values of other types.
fn info_and_name_in(values: &[Value]) -> Option<(Info<'_>, Option<&MooStr>)>
    ensures { option_map (λ p. (info_shown p.0, option_map (λ n. n.now) p.1)) result ≡ info_and_name_in values.now }
{
    match values {
        [Value::Obj(owner), Value::Str(perms)] => Some((
            Info {
                owner: *owner,
                perms,
            },
            None,
        )),
        [Value::Obj(owner), Value::Str(perms), Value::Str(name)] => Some((
            Info {
                owner: *owner,
                perms,
            },
            Some(name),
        )),
        _ => None,
    }
}

/// What `set_property_info` takes: an object, a name, and `{owner, perms}` or `{owner, perms, new-name}`.
#[derive(Clone, Copy)]
pub struct NewPropertyInfo<'a> {
    pub object: ObjNo,
    pub name: &'a MooStr,
    pub info: Info<'a>,
    pub new_name: Option<&'a MooStr>,
}

/// What `set_property_info` takes. E_ARGS unless there are three arguments; E_TYPE if they aren't an object, a string, and
/// `{owner, perms}` or `{owner, perms, new-name}`.
pub fn new_property_info(args: &[Value]) -> Result<NewPropertyInfo<'_>, Code>
    // The answer is the object, the name, the owner and the letters of the arguments, and the new name if they have one.
    ensures ok { IfOk result (λ p. new_property_info args.now ≡ Ok (record {
      object = p.object;
      name = p.name.now;
      info = info_shown p.info;
      new_name = option_map (λ n. n.now) p.new_name;
    })) }
    // The error is that of the arguments: E_ARGS for their number, else E_TYPE.
    ensures err { IfErr result (λ code. new_property_info args.now ≡ Err code) }
{
    match args {
        [Value::Obj(object), Value::Str(name), Value::List(list)] => {
            match info_and_name_in(list.items()) {
                Some((info, new_name)) => Ok(NewPropertyInfo {
                    object: *object,
                    name,
                    info,
                    new_name,
                }),
                None => Err(Code::Type),
            }
        }
        [_, _, _] => Err(Code::Type),
        _ => Err(Code::Arguments),
    }
}
