//! Telling in words why rows show no world, with the line that shows it.

use crate::finding::{Found, counted_line, line_with};
use crate::said::Said;
use crate::slots::put_slot_damage;
use moo_damage::{Key, Kind};
use moo_value::{ObjNo, Value};
use std::alloc::AllocError;

/// The object of a number of 64 bits; `#-1` for a number out of range, which no row of a text has.
fn object_numbered(number: i64) -> ObjNo {
    ObjNo(i32::try_from(number).unwrap_or(-1))
}

/// Says which damage the rows of a text have, with the line that shows it, if there is one. The only error is a lack of memory.
pub(crate) fn put_damage(
    said: &mut Said,
    text: &[u8],
    kind: Kind,
    key: Key,
) -> Result<(), AllocError> {
    match key {
        Key::Object(number) => put_object_damage(said, text, kind, object_numbered(number)),
        Key::Prop(count) => put_property_damage(said, text, kind, count),
        Key::Slot(number, count) => {
            put_slot_damage(said, text, kind, object_numbered(number), count)
        }
        Key::Verb(number, count) => {
            let found = counted_line(said.alloc, text, b"verb", count)?;
            said.put_place(found.map(|line| line.number))?;
            said.put_object(object_numbered(number))?;
            said.put(" isn't an object of the dump")
        }
        Key::Head | Key::Petition(_) => {
            said.put_place(None)?;
            said.put("its numbers aren't those of a world")
        }
    }
}

/// Says that the link of an object, the value at this place of its line's list, names no object. The only error is a lack of memory.
fn put_link(said: &mut Said, found: &Option<Found>, place: usize) -> Result<(), AllocError> {
    if let Some(line) = found {
        if let Some(other) = line.values.get(place) {
            said.put(", ")?;
            said.put_value(other)?;
            said.put(",")?;
        }
    }
    said.put(" isn't an object of the dump")
}

/// Says what is wrong with an object: its parent, its location, a circle of them, or its number. The only error is a lack of memory.
fn put_object_damage(
    said: &mut Said,
    text: &[u8],
    kind: Kind,
    object: ObjNo,
) -> Result<(), AllocError> {
    let front = vec![in said.alloc; Value::Obj(object)]?;
    let found = line_with(said.alloc, text, b"object", &front)?;
    said.put_place(found.as_ref().map(|line| line.number))?;
    said.put(match kind {
        Kind::NoParent => "the parent of ",
        Kind::NoPlace => "the location of ",
        Kind::ParentLoop => "the parents of ",
        Kind::PlaceLoop => "the locations of ",
        _ => "",
    })?;
    said.put_object(object)?;
    match kind {
        Kind::NoParent => put_link(said, &found, 3),
        Kind::NoPlace => put_link(said, &found, 4),
        Kind::ParentLoop | Kind::PlaceLoop => said.put(" go in a circle"),
        _ => said.put(" is below #0, or above the greatest number, which line 2 gives"),
    }
}

/// Says what is wrong with the property of a count, from 1, in the text: its definer isn't an object, or another property has its name. The
/// only error is a lack of memory.
fn put_property_damage(
    said: &mut Said,
    text: &[u8],
    kind: Kind,
    count: i64,
) -> Result<(), AllocError> {
    let found = counted_line(said.alloc, text, b"property", count)?;
    said.put_place(found.as_ref().map(|line| line.number))?;
    let Some(line) = found else {
        return said.put("a property has no place");
    };
    let [definer, name, ..] = line.values.as_slice() else {
        return said.put("a property has no place");
    };
    if let Kind::NoDefiner = kind {
        said.put_value(definer)?;
        said.put(" isn't an object of the dump")
    } else {
        said.put_value(definer)?;
        said.put(" or an object above or under it defines another property ")?;
        said.put_value(name)
    }
}
