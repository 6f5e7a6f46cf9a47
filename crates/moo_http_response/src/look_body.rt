//! The JSON of an object.

ghost use Rattle.std.specs.Prelude.{◌≡◌, map, IfOk, OnOk, string_bytes};
ghost use Rattle.serde_json.specs.{Data.{string, put as insert}, View.{items_view, members_view}, Written.{compact_text}};
ghost use Rattle.moo_http_response.specs.Bodies.{strings, object_text, objects as objects_of, flag_data, look_body};
ghost use Rattle.moo_http_response.specs.Fields.{with_links, with_flags};

use crate::bodies::{literal_text, print_object};
use moo_dump::Look;
use moo_value::{MooStr, ObjNo, Value as Literal};
use serde_json::{Map, Value, put};
use std::alloc::{AllocError, Global};

/// The literal of an object, as `#3`. AllocError if memory runs out.
fn object_literal(alloc: Global, x: ObjNo) -> Result<String, AllocError>
    ensures { IfOk result (λ text. string_bytes text ≡ object_text x) }
{
    literal_text(alloc, &Literal::Obj(x))
}

/// The entries of an array of JSON: each object as the text of its literal. AllocError if memory runs out.
fn object_literals(alloc: Global, objects: &[ObjNo]) -> Result<Vec<Value>, AllocError>
    ensures { IfOk result (λ list. items_view list.items ≡ strings (map object_text objects.now)) }
{
    let mut list = Vec::with_capacity(alloc, objects.len())?;
    for x in objects {
        list.push(Value::String(object_literal(alloc, *x)?))?;
    }
    Ok(list)
}

/// The name of an object as text. AllocError if memory runs out.
fn name_text(alloc: Global, name: &MooStr) -> Result<String, AllocError>
    ensures { IfOk result (λ text. string_bytes text ≡ name.now) }
{
    let bytes = Vec::from_slice(alloc, name.bytes())?;
    Ok(String::from_utf8(bytes).unwrap())
}

/// Puts an array of objects under a key, in place of what is there. AllocError if memory runs out.
fn put_objects(
    fields: &mut Map<String, Value>,
    alloc: Global,
    key: &str,
    objects: &[ObjNo],
) -> Result<(), AllocError>
    ensures { OnOk result (members_view fields.new.entries ≡ insert key.now (objects_of objects.now) (members_view fields.old.entries)) }
{
    let list = object_literals(alloc, objects)?;
    put(fields, alloc, key, Value::Array(list))
}

/// Puts an object under a key, as the text of its literal. AllocError if memory runs out.
pub(crate) fn put_object(
    fields: &mut Map<String, Value>,
    alloc: Global,
    key: &str,
    x: ObjNo,
) -> Result<(), AllocError>
    ensures { OnOk result (members_view fields.new.entries ≡ insert key.now (string (object_text x)) (members_view fields.old.entries)) }
{
    let text = object_literal(alloc, x)?;
    put(fields, alloc, key, Value::String(text))
}

/// Puts the name of an object under a key. AllocError if memory runs out.
pub(crate) fn put_name(
    fields: &mut Map<String, Value>,
    alloc: Global,
    key: &str,
    name: &MooStr,
) -> Result<(), AllocError>
    ensures { OnOk result (members_view fields.new.entries ≡ insert key.now (string name.now) (members_view fields.old.entries)) }
{
    let text = name_text(alloc, name)?;
    put(fields, alloc, key, Value::String(text))
}

/// Puts 1 under a key for a flag that is set, and else 0. AllocError if memory runs out.
pub(crate) fn put_flag(
    fields: &mut Map<String, Value>,
    alloc: Global,
    key: &str,
    set: bool,
) -> Result<(), AllocError>
    ensures { OnOk result (members_view fields.new.entries ≡ insert key.now (flag_data set) (members_view fields.old.entries)) }
{
    put(fields, alloc, key, Value::from(u64::from(set)))
}

/// Puts the name of an object, and the objects that its fields name, each under its key. AllocError if memory runs out.
fn put_links(fields: &mut Map<String, Value>, alloc: Global, look: &Look) -> Result<(), AllocError>
    ensures { OnOk result (members_view fields.new.entries ≡ with_links look.now (members_view fields.old.entries)) }
{
    put_objects(fields, alloc, "children", look.children.items())?;
    put_objects(fields, alloc, "contents", look.contents.items())?;
    put_object(fields, alloc, "location", look.location)?;
    put_name(fields, alloc, "name", &look.name)?;
    put_object(fields, alloc, "owner", look.owner)?;
    put_object(fields, alloc, "parent", look.parent)
}

/// Puts the flags of an object under the keys `f`, `player`, `programmer`, `r`, `w` and `wizard`: 1 for one that is set, and else 0. The
/// only error is a lack of memory. `put_flags` of `page_body.rt` does the same for an entry of a page.
fn put_flags(fields: &mut Map<String, Value>, alloc: Global, look: &Look) -> Result<(), AllocError>
    ensures { OnOk result (members_view fields.new.entries ≡ with_flags look.now (members_view fields.old.entries)) }
{
    put_flag(fields, alloc, "f", look.f)?;
    put_flag(fields, alloc, "player", look.player)?;
    put_flag(fields, alloc, "programmer", look.programmer)?;
    put_flag(fields, alloc, "r", look.r)?;
    put_flag(fields, alloc, "w", look.w)?;
    put_flag(fields, alloc, "wizard", look.wizard)
}

/// The body that tells what an object looks like: its fields, its children and what is in it. AllocError if memory runs out.
pub(crate) fn look_text(alloc: Global, look: &Look) -> Result<String, AllocError>
    ensures { IfOk result (λ text. string_bytes text ≡ compact_text (look_body look.now)) }
{
    let mut fields = Map::new(alloc);
    put_links(&mut fields, alloc, look)?;
    put_flags(&mut fields, alloc, look)?;
    print_object(alloc, fields)
}
