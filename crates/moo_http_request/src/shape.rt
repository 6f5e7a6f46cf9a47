//! The JSON of a body, and its shape.

ghost use Rattle.std.specs.{Prelude.{◌≡◌, Some, None, map, option_map, IfOk, MatchOption, IsUtf8, nat_le, length}, List.{list_all}};
ghost use Rattle.serde_json.specs.{Read.{read}, View.{view, items_view}};
ghost use Rattle.moo_http_request.specs.{Shape.{texts_of, stated_at, are_within, shape_of}, Shown.{shape_read_shown}};

use crate::wrong::ShapeFault;
use moo_text::{LONGEST_LINE, object_of};
use moo_value::ObjNo;
use moo_world::MOST_CALLS;
use serde_json::Value;
use std::alloc::{AllocError, Global};

/// Who asks, the texts of the calls, and the number that the batch is for.
#[derive(Drop)]
pub struct Shape<'a> {
    pub programmer: ObjNo,
    pub calls: Vec<&'a str>,
    pub at: Option<u64>,
}

/// Whether a JSON has the shape of a body.
#[derive(Drop)]
pub enum ShapeRead<'a> {
    /// It has this shape.
    Whole(Shape<'a>),
    /// It has another one, by the first check that fails.
    Bad(ShapeFault),
}

/// The texts of an array of strings. None if an entry isn't a string. AllocError if memory runs out.
fn call_texts_in<'a>(alloc: Global, items: &'a [Value]) -> Result<Option<Vec<&'a str>>, AllocError>
    ensures { IfOk result (λ found. option_map (λ texts. map (λ text. text.now) texts.items) found
        ≡ texts_of (items_view items.now)) }
{
    let mut texts = Vec::new(alloc);
    for item in items {
        let Some(text) = item.as_str() else {
            return Ok(None);
        };
        texts.push(text)?;
    }
    Ok(Some(texts))
}

/// The number under the key `at`, 0 to 9,223,372,036,854,775,807; no number if the key is absent or null. None if it has another value.
fn stated_at(found: Option<&Value>) -> Option<Option<u64>>
    ensures { result ≡ stated_at (option_map (λ value. view value.now) found.entry) }
{
    match found {
        Some(value) if !value.is_null() => value.as_u64().filter(|seq| *seq < 1 << 63).map(Some),
        _ => Some(None),
    }
}

/// Whether each text has at most 262,144 bytes, as many as a line of a batch.
fn all_within_line(texts: &[&str]) -> bool
    ensures { result ≡ list_all (λ text. nat_le (length text.now) LONGEST_LINE) texts.now }
{
    texts.iter().all(|text| text.len() <= LONGEST_LINE)
}

/// Whether the texts of a body are within its limits: at most 1,000 texts, of at most 262,144 bytes each.
fn are_within_limits(texts: &[&str]) -> bool
    ensures { result ≡ are_within (map (λ text. text.now) texts.now) }
{
    texts.len() <= MOST_CALLS && all_within_line(texts)
}

/// The JSON that the bytes are. None if they aren't JSON. AllocError if memory runs out.
pub(crate) fn read_json(alloc: Global, bytes: &[u8]) -> Result<Option<Value>, AllocError>
    ensures { IfOk result (λ found. MatchOption found
        (IsUtf8 bytes.now → read bytes.now ≡ None)
        (λ value. IsUtf8 bytes.now × (read bytes.now ≡ Some (view value)))) }
{
    match Value::from_slice(alloc, bytes) {
        Ok(value) => Ok(Some(value)),
        Err(error) if error.is_memory() => Err(AllocError),
        Err(_) => Ok(None),
    }
}

/// Why a JSON doesn't have a key: it lacks that key, or isn't an object.
fn missing_key(value: &Value, key: ShapeFault) -> ShapeFault {
    if value.is_object() {
        key
    } else {
        ShapeFault::NotAnObject
    }
}

/// Which limit the texts are over: one is too long, if they aren't too many.
fn over_limit(texts: &[&str]) -> ShapeFault {
    if texts.len() <= MOST_CALLS {
        ShapeFault::LongCall
    } else {
        ShapeFault::ManyCalls
    }
}

/// The shape of a body that is this JSON: who asks, the calls, and the number that they are meant for. Bad with the first check that fails.
/// AllocError if memory runs out.
pub(crate) fn shape_in(alloc: Global, value: &Value) -> Result<ShapeRead<'_>, AllocError>
    ensures { IfOk result (λ found. shape_read_shown found ≡ shape_of (view value.now)) }
{
    let Some(named) = value.get("as") else {
        return Ok(ShapeRead::Bad(missing_key(value, ShapeFault::NoProgrammer)));
    };
    let Some(text) = named.as_str() else {
        return Ok(ShapeRead::Bad(ShapeFault::ProgrammerNoText));
    };
    let Some(programmer) = object_of(alloc, text.as_bytes())? else {
        return Ok(ShapeRead::Bad(ShapeFault::ProgrammerNoObject));
    };
    let Some(listed) = value.get("calls") else {
        return Ok(ShapeRead::Bad(ShapeFault::NoCalls));
    };
    let Some(items) = listed.as_array() else {
        return Ok(ShapeRead::Bad(ShapeFault::CallsNoArray));
    };
    let Some(calls) = call_texts_in(alloc, items)? else {
        return Ok(ShapeRead::Bad(ShapeFault::CallNoText));
    };
    let Some(at) = stated_at(value.get("at")) else {
        return Ok(ShapeRead::Bad(ShapeFault::NoNumber));
    };
    if !are_within_limits(&calls) {
        return Ok(ShapeRead::Bad(over_limit(&calls)));
    }
    Ok(ShapeRead::Whole(Shape {
        programmer,
        calls,
        at,
    }))
}
