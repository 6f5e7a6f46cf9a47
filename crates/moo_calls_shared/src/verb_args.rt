//! What a call on verbs is given: descriptors, and owners, rights, names and arguments in lists. A list of another length, or
//! with something of another type in it, is E_TYPE, and so is a descriptor that is neither a number nor a word.

ghost use Rattle.std.specs.{Prelude.{◌≡◌, IfOk, IfErr, Ok, Err, option_map}, Result.{result_map_both}};
ghost use Rattle.moo_world.specs.Arguments.{desc_of, verb_info_in, texts_in, object_and_desc, new_verb, new_verb_info, new_verb_args};
ghost use Rattle.moo_calls_shared.specs.{Outcomes.{GivenOrNot}, Shown.{verb_info_shown, args_shown}};

use crate::fault::Fault;
use crate::infos::Info;
use moo_value::{Code, MooStr, ObjNo, Value};
use moo_world::{Desc, Reason};
use std::alloc::{AllocError, Global};

/// The descriptor that a value is: a number or a word. `None` for any other value. The only error is a lack of memory.
fn desc_of(alloc: Global, value: &Value) -> Result<Option<Desc>, AllocError>
    ensures { IfOk result (λ desc. desc ≡ desc_of value.now) }
{
    match value {
        Value::Int(number) => Ok(Some(Desc::Index(*number))),
        Value::Str(word) => Ok(Some(Desc::Name(word.copy(alloc)?))),
        _ => Ok(None),
    }
}

/// What `verb_info`, `verb_args` and `delete_verb` take: an object and a descriptor. E_ARGS unless there are two arguments, and then
/// E_TYPE for anything else.
pub fn object_and_desc(alloc: Global, args: &[Value]) -> Result<(ObjNo, Desc), Fault>
    // What is read, or the error of the arguments: E_ARGS for their number, else E_TYPE; or memory ran out.
    ensures given { GivenOrNot (object_and_desc args.now) result }
{
    match args {
        [Value::Obj(x), desc] => match desc_of(alloc, desc)? {
            Some(desc) => Ok((*x, desc)),
            None => Err(Fault::Moo(Reason::Given(Code::Type))),
        },
        [_, _] => Err(Fault::Moo(Reason::Given(Code::Type))),
        _ => Err(Fault::Moo(Reason::Given(Code::Arguments))),
    }
}

/// The owner, the letters of the rights and the names of a verb.
#[derive(Clone, Copy)]
pub struct VerbInfo<'a> {
    pub info: Info<'a>,
    pub names: &'a MooStr,
}

/// The owner, the letters and the names of `{owner, perms, names}`; `None` for another number of values, or for values of other types.
fn verb_info_in(values: &[Value]) -> Option<VerbInfo<'_>>
    ensures { option_map verb_info_shown result ≡ verb_info_in values.now }
{
    match values {
        [Value::Obj(owner), Value::Str(perms), Value::Str(names)] => Some(VerbInfo {
            info: Info {
                owner: *owner,
                perms,
            },
            names,
        }),
        _ => None,
    }
}

/// The arguments of a verb, as texts.
#[derive(Clone, Copy)]
pub struct ArgTexts<'a> {
    pub dobj: &'a MooStr,
    pub prep: &'a MooStr,
    pub iobj: &'a MooStr,
}

/// The three texts of `{dobj, prep, iobj}`; `None` for another number of values, or if one isn't a string.
fn texts_in(values: &[Value]) -> Option<ArgTexts<'_>>
    ensures { option_map args_shown result ≡ texts_in values.now }
{
    match values {
        [Value::Str(dobj), Value::Str(prep), Value::Str(iobj)] => {
            Some(ArgTexts { dobj, prep, iobj })
        }
        _ => None,
    }
}

/// What `add_verb` takes: an object, `{owner, perms, names}` and `{dobj, prep, iobj}`.
#[derive(Clone, Copy)]
pub struct NewVerb<'a> {
    pub object: ObjNo,
    pub verb: VerbInfo<'a>,
    pub args: ArgTexts<'a>,
}

/// What `add_verb` takes. E_ARGS unless there are three arguments; E_TYPE if they aren't an object, `{owner, perms, names}` and
/// `{dobj, prep, iobj}`.
pub fn new_verb(args: &[Value]) -> Result<NewVerb<'_>, Code>
    // The answer is the object; the owner, the letters and the names; and the three texts of the verb's arguments.
    ensures ok { IfOk result (λ p. new_verb args.now ≡ Ok (p.object, (verb_info_shown p.verb, args_shown p.args))) }
    // The error is that of the arguments: E_ARGS for their number, else E_TYPE.
    ensures err { IfErr result (λ code. new_verb args.now ≡ Err code) }
{
    match args {
        [Value::Obj(object), Value::List(info), Value::List(texts)] => {
            let Some(verb) = verb_info_in(info.items()) else {
                return Err(Code::Type);
            };
            match texts_in(texts.items()) {
                Some(args) => Ok(NewVerb {
                    object: *object,
                    verb,
                    args,
                }),
                None => Err(Code::Type),
            }
        }
        [_, _, _] => Err(Code::Type),
        _ => Err(Code::Arguments),
    }
}

/// What `set_verb_info` takes: an object, a descriptor and `{owner, perms, names}`.
#[derive(Drop)]
pub struct NewVerbInfo<'a> {
    pub object: ObjNo,
    pub desc: Desc,
    pub verb: VerbInfo<'a>,
}

/// What `set_verb_info` takes. E_ARGS unless there are three arguments, and then E_TYPE for anything but an object, a descriptor and
/// `{owner, perms, names}`.
pub fn new_verb_info(alloc: Global, args: &[Value]) -> Result<NewVerbInfo<'_>, Fault>
    // What is read, or the error of the arguments: E_ARGS for their number, else E_TYPE; or memory ran out.
    ensures given { GivenOrNot (new_verb_info args.now)
        (result_map_both (λ p. (p.object, (p.desc, verb_info_shown p.verb))) (λ fault. fault) result) }
{
    match args {
        [Value::Obj(object), desc, Value::List(info)] => {
            // The list is looked at first: E_TYPE comes before the word takes memory.
            let Some(verb) = verb_info_in(info.items()) else {
                return Err(Fault::Moo(Reason::Given(Code::Type)));
            };
            match desc_of(alloc, desc)? {
                Some(desc) => Ok(NewVerbInfo {
                    object: *object,
                    desc,
                    verb,
                }),
                None => Err(Fault::Moo(Reason::Given(Code::Type))),
            }
        }
        [_, _, _] => Err(Fault::Moo(Reason::Given(Code::Type))),
        _ => Err(Fault::Moo(Reason::Given(Code::Arguments))),
    }
}

/// What `set_verb_args` takes: an object, a descriptor and `{dobj, prep, iobj}`.
#[derive(Drop)]
pub struct NewVerbArgs<'a> {
    pub object: ObjNo,
    pub desc: Desc,
    pub args: ArgTexts<'a>,
}

/// What `set_verb_args` takes. E_ARGS unless there are three arguments, and then E_TYPE for anything but an object, a descriptor and
/// `{dobj, prep, iobj}`.
pub fn new_verb_args(alloc: Global, args: &[Value]) -> Result<NewVerbArgs<'_>, Fault>
    // What is read, or the error of the arguments: E_ARGS for their number, else E_TYPE; or memory ran out.
    ensures given { GivenOrNot (new_verb_args args.now)
        (result_map_both (λ p. (p.object, (p.desc, args_shown p.args))) (λ fault. fault) result) }
{
    match args {
        [Value::Obj(object), desc, Value::List(texts)] => {
            let Some(args) = texts_in(texts.items()) else {
                return Err(Fault::Moo(Reason::Given(Code::Type)));
            };
            match desc_of(alloc, desc)? {
                Some(desc) => Ok(NewVerbArgs {
                    object: *object,
                    desc,
                    args,
                }),
                None => Err(Fault::Moo(Reason::Given(Code::Type))),
            }
        }
        [_, _, _] => Err(Fault::Moo(Reason::Given(Code::Type))),
        _ => Err(Fault::Moo(Reason::Given(Code::Arguments))),
    }
}
