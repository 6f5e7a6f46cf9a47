//! Telling which slot is missing or too many, with the line that shows it.

use crate::finding::{begin_with, counted_line, has_word, line_with, values_in};
use crate::order::put_slot_wanted;
use crate::said::Said;
use moo_damage::Kind;
use moo_value::{ObjNo, Value};
use std::alloc::{AllocError, Global};
use std::collections::BTreeMap;

/// The first values of the line of a slot: its object, and the definer and the name of the property of this count, from 1, in the text.
/// AllocError: memory ran out.
fn slot_front(
    alloc: Global,
    text: &[u8],
    object: ObjNo,
    count: i64,
) -> Result<Vec<Value>, AllocError> {
    let mut front = vec![in alloc; Value::Obj(object)]?;
    if let Some(found) = counted_line(alloc, text, b"property", count)? {
        for value in found.values.iter().take(2) {
            front.push(value.copy(alloc)?).map_err(AllocError::from)?;
        }
    }
    Ok(front)
}

/// Says what is wrong with the slot on an object of the property whose line is the one of this count, from 1, among the lines `property` of
/// the dump `text`: first the line that shows it, if one does. MissingSlot: this slot is wanted there. ClearDefiner: the object defines the
/// property, so its slot can't be clear. StrangeSlot: the object has no such property, or isn't an object. AllocError: memory ran out.
pub(crate) fn put_slot_damage(
    said: &mut Said,
    text: &[u8],
    kind: Kind,
    object: ObjNo,
    count: i64,
) -> Result<(), AllocError> {
    if let Kind::MissingSlot = kind {
        let number = place_of_slot(said.alloc, text, object, count)?;
        said.put_place(number)?;
        return put_slot_wanted(said, text, count);
    }
    let front = slot_front(said.alloc, text, object, count)?;
    let found = line_with(said.alloc, text, b"slot", &front)?;
    said.put_place(found.map(|line| line.number))?;
    if let Kind::ClearDefiner = kind {
        said.put_object(object)?;
        return said.put(" defines this property, so its slot can't be clear");
    }
    put_strange_slot(said, text, object, &front)
}

/// Says that an object has no property of a slot, whose line begins with the values `front`, or isn't an object. The only error is a lack
/// of memory.
fn put_strange_slot(
    said: &mut Said,
    text: &[u8],
    object: ObjNo,
    front: &[Value],
) -> Result<(), AllocError> {
    said.put_object(object)?;
    let alone = vec![in said.alloc; Value::Obj(object)]?;
    let is_missing = line_with(said.alloc, text, b"object", &alone)?.is_none();
    match front {
        [_, definer, name] if !is_missing => {
            said.put(" has no property ")?;
            said.put_value(name)?;
            said.put(" of ")?;
            said.put_value(definer)
        }
        _ => said.put(" isn't an object of the dump"),
    }
}

/// The parent of each object that has a line in the text. AllocError: memory ran out.
fn all_parents(alloc: Global, text: &[u8]) -> Result<BTreeMap<ObjNo, ObjNo>, AllocError> {
    let mut parents = BTreeMap::new(alloc);
    for line in text.split(|byte| *byte == b'\n') {
        if has_word(line, b"object") {
            if let [Value::Obj(x), _, _, Value::Obj(parent), ..] = values_in(
                alloc, line,
            )?.as_slice()
            {
                parents.insert(*x, *parent)?;
            }
        }
    }
    Ok(parents)
}

/// The objects from x up its chain to the definer of a property, at most as many as `parents` has. AllocError: memory ran out.
fn chain_to(
    alloc: Global,
    parents: &BTreeMap<ObjNo, ObjNo>,
    x: ObjNo,
    definer: ObjNo,
) -> Result<BTreeMap<ObjNo, ()>, AllocError> {
    let mut nearer = BTreeMap::new(alloc);
    let mut at = x;
    for _ in 0..parents.len() {
        nearer.insert(at, ())?;
        match parents.get(&at) {
            Some(parent) if at != definer => at = *parent,
            _ => return Ok(nearer),
        }
    }
    Ok(nearer)
}

/// Whether a line of an object, the one value of `front`, comes before the object's slots of properties that objects above `nearer` define:
/// it is a property, or the object's slot of a property that one of `nearer` defines. AllocError: memory ran out.
fn comes_before(
    alloc: Global,
    line: &[u8],
    front: &[Value],
    nearer: &BTreeMap<ObjNo, ()>,
) -> Result<bool, AllocError> {
    if has_word(line, b"property") {
        return Ok(true);
    }
    if !has_word(line, b"slot") {
        return Ok(false);
    }
    let values = values_in(alloc, line)?;
    match values.get(1) {
        Some(Value::Obj(definer)) => {
            Ok(begin_with(&values, front) && nearer.get(definer).is_some())
        }
        _ => Ok(false),
    }
}

/// The number of the line at which an object's slot of the property of a count, from 1, is wanted: the first line after the object's own
/// that doesn't come before the slot. `None` if there is no such line. AllocError: memory ran out.
fn place_of_slot(
    alloc: Global,
    text: &[u8],
    object: ObjNo,
    count: i64,
) -> Result<Option<u64>, AllocError> {
    let Some(property) = counted_line(alloc, text, b"property", count)? else {
        return Ok(None);
    };
    let Some(Value::Obj(definer)) = property.values.get(0) else {
        return Ok(None);
    };
    let nearer = chain_to(alloc, &all_parents(alloc, text)?, object, *definer)?;
    let front = vec![in alloc; Value::Obj(object)]?;
    let Some(found) = line_with(alloc, text, b"object", &front)? else {
        return Ok(None);
    };
    let mut number: u64 = 0;
    for line in text.split(|byte| *byte == b'\n') {
        number = number.saturating_add(1);
        if found.number < number && !comes_before(alloc, line, &front, &nearer)? {
            return Ok(Some(number));
        }
    }
    Ok(None)
}
