//! The JSON of a page of objects.

ghost use Rattle.std.specs.Prelude.{◌≡◌, map, IfOk, OnOk, string_bytes, codes};
ghost use Rattle.serde_json.specs.{Data.{put as insert}, View.{items_of, items_view, members_view, view}, Written.{compact_text}};
ghost use Rattle.moo_http_response.specs.{PageBodies.{entry_body, next_data, page_body}, Fields.{with_entry_links, with_entry_flags}};

use crate::bodies::print_object;
use crate::entry::Entry;
use crate::look_body::{put_flag, put_name, put_object};
use crate::page::Page;
use moo_value::ObjNo;
use serde_json::{Map, Value, put};
use std::alloc::{AllocError, Global};

/// Puts the number and the name of an object, and the objects that its fields name, each under its key. AllocError if memory runs out.
fn put_links(
    fields: &mut Map<String, Value>,
    alloc: Global,
    entry: &Entry,
) -> Result<(), AllocError>
    ensures { OnOk result (members_view fields.new.entries ≡ with_entry_links entry.now (members_view fields.old.entries)) }
{
    put_object(fields, alloc, "location", entry.location)?;
    put_name(fields, alloc, "name", &entry.name)?;
    put_object(fields, alloc, "number", entry.number)?;
    put_object(fields, alloc, "owner", entry.owner)?;
    put_object(fields, alloc, "parent", entry.parent)
}

/// Puts the flags of an entry under the keys `f`, `player`, `programmer`, `r`, `w` and `wizard`: 1 for one that is set, and else 0. The
/// only error is a lack of memory. `put_flags` of `look_body.rt` does the same for an object that is looked at.
fn put_flags(
    fields: &mut Map<String, Value>,
    alloc: Global,
    entry: &Entry,
) -> Result<(), AllocError>
    ensures { OnOk result (members_view fields.new.entries ≡ with_entry_flags entry.now (members_view fields.old.entries)) }
{
    put_flag(fields, alloc, "f", entry.f)?;
    put_flag(fields, alloc, "player", entry.player)?;
    put_flag(fields, alloc, "programmer", entry.programmer)?;
    put_flag(fields, alloc, "r", entry.r)?;
    put_flag(fields, alloc, "w", entry.w)?;
    put_flag(fields, alloc, "wizard", entry.wizard)
}

/// The entry of an object in the list of a page. AllocError if memory runs out.
fn entry_value(alloc: Global, entry: &Entry) -> Result<Value, AllocError>
    ensures { IfOk result (λ value. view value ≡ entry_body entry.now) }
{
    let mut fields = Map::new(alloc);
    put_links(&mut fields, alloc, entry)?;
    put_flags(&mut fields, alloc, entry)?;
    Ok(Value::Object(fields))
}

/// The entries of all objects of a page, in their order. AllocError if memory runs out.
fn entry_values(alloc: Global, entries: &[Entry]) -> Result<Vec<Value>, AllocError>
    ensures { IfOk result (λ list. items_view list.items ≡ items_of (map entry_body entries.now)) }
{
    let mut list = Vec::with_capacity(alloc, entries.len())?;
    for entry in entries {
        list.push(entry_value(alloc, entry)?)?;
    }
    Ok(list)
}

/// Puts the first object that the page leaves out under `next`, or null if it leaves out none. AllocError if memory runs out.
fn put_next(
    fields: &mut Map<String, Value>,
    alloc: Global,
    next: Option<ObjNo>,
) -> Result<(), AllocError>
    ensures { OnOk result (members_view fields.new.entries ≡ insert (codes "next") (next_data next) (members_view fields.old.entries)) }
{
    match next {
        Some(x) => put_object(fields, alloc, "next", x),
        None => put(fields, alloc, "next", Value::Null),
    }
}

/// The body that tells a page: its objects under `objects`, the first that is left out under `next`, and the number of accepted batches
/// under `seq`. AllocError if memory runs out.
pub(crate) fn page_text(alloc: Global, page: &Page, seq: u64) -> Result<String, AllocError>
    ensures { IfOk result (λ text. string_bytes text ≡ compact_text (page_body page.now seq)) }
{
    let list = entry_values(alloc, page.objects.items())?;
    let mut fields = Map::new(alloc);
    put_next(&mut fields, alloc, page.next)?;
    put(&mut fields, alloc, "objects", Value::Array(list))?;
    put(&mut fields, alloc, "seq", Value::from(seq))?;
    print_object(alloc, fields)
}
