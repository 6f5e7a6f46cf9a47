//! Testing whether no two properties of an object have one name, in time that grows with the slots of the objects that define properties.

ghost use Rattle.std.specs.{Prelude.{◌≡◌, IfOk, OnOk, true}, FinMap.{get}};
ghost use Rattle.moo_rows.specs.{Maps.{object_cmp}, Ordered.{contents}};
ghost use Rattle.moo_world.specs.{Objects.{folded}, Rows.{IsSound}};
ghost use Rattle.moo_damage.specs.Apart.{AreApart, DefinersApart, NamesApart, NotesName, NotesProp, is_alone, noted_as};

use moo_rows::{PropId, Rows, each_prop, each_slot_of, ordered};
use moo_value::{MooStr, ObjNo};
use std::alloc::{AllocError, Global};
use std::collections::BTreeMap;

/// Notes a property under its name, and answers whether no other property was noted under it. The only error is a lack of memory.
fn note_name(
    alloc: Global,
    noted: &mut BTreeMap<Vec<u8>, PropId>,
    name: &MooStr,
    id: PropId,
) -> Result<bool, AllocError>
    // The property is noted under its name, and every other name has what it had.
    ensures noted { OnOk result (NotesName name.now id noted.old noted.new) }
    // The answer is whether no other property was noted under the name.
    ensures alone { IfOk result (λ alone. alone ≡ is_alone (noted_as noted.old (folded name.now)) id) }
{
    let key = name.bytes().to_ascii_lowercase(alloc)?;
    match noted.insert(key, id)? {
        None => Ok(true),
        Some(other) => Ok(other.0 == id.0),
    }
}

/// Notes the property of a number, if there is one, and answers whether no other was noted under its name. AllocError: memory ran out.
fn note_prop<R: Rows>(
    alloc: Global,
    rows: &R,
    noted: &mut BTreeMap<Vec<u8>, PropId>,
    id: PropId,
) -> Result<bool, AllocError>
    ensures { IfOk result (NotesProp (get (R.held rows.now).maps.props id) id noted.old noted.new) }
{
    match rows.prop(id) {
        None => Ok(true),
        Some(row) => note_name(alloc, noted, &row.name, id),
    }
}

/// Whether no two properties that x has slots of have one name. The only error is a lack of memory.
fn names_apart_on<R: Rows>(alloc: Global, rows: &R, x: ObjNo) -> Result<bool, AllocError>
    ensures apart { IfOk result (λ apart. apart ≡ true → NamesApart (R.held rows.now).maps x) }
    // Of sound rows the answer is yes.
    ensures sound { IsSound (R.held rows.now).maps → IfOk result (λ apart. apart ≡ true) }
{
    let mut noted = BTreeMap::new(alloc);
    for (key, _slot) in each_slot_of(rows, x, PropId(0)) {
        let alone = note_prop(alloc, rows, &mut noted, key.1)?;
        if !alone {
            return Ok(false);
        }
    }
    Ok(true)
}

/// Whether no two properties that x has slots of have one name. An object in `known` isn't looked at: it was found so before. If x is found
/// so, it joins `known`. The only error is a lack of memory.
fn seen_apart<R: Rows>(
    alloc: Global,
    rows: &R,
    known: &mut BTreeMap<ObjNo, ()>,
    x: ObjNo,
) -> Result<bool, AllocError>
    // On each object in `known` no two properties have one name.
    requires { AreApart (R.held rows.now).maps (contents object_cmp known.old) }
    // So it is on each object in `known` afterwards.
    ensures known { OnOk result (AreApart (R.held rows.now).maps (contents object_cmp known.new)) }
    ensures apart { IfOk result (λ apart. apart ≡ true → NamesApart (R.held rows.now).maps x) }
    // Of sound rows the answer is yes.
    ensures sound { IsSound (R.held rows.now).maps → IfOk result (λ apart. apart ≡ true) }
{
    if ordered::get(known, x).is_some() {
        return Ok(true);
    }
    let apart = names_apart_on(alloc, rows, x)?;
    if !apart {
        return Ok(false);
    }
    ordered::put(known, x, ())?;
    Ok(true)
}

/// Whether no two properties that an object has slots of have one name, on each object that defines a property. AllocError: memory ran out.
pub(crate) fn are_names_apart<R: Rows>(alloc: Global, rows: &R) -> Result<bool, AllocError>
    ensures apart { IfOk result (λ apart. apart ≡ true → DefinersApart (R.held rows.now).maps) }
    // Of sound rows the answer is yes.
    ensures sound { IsSound (R.held rows.now).maps → IfOk result (λ apart. apart ≡ true) }
{
    let mut known = BTreeMap::new(alloc);
    for (_id, row) in each_prop(rows) {
        let apart = seen_apart(alloc, rows, &mut known, row.definer)?;
        if !apart {
            return Ok(false);
        }
    }
    Ok(true)
}
