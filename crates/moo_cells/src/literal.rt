//! Cells that hold literals.

ghost use Rattle.std.specs.{Prelude.{◌≡◌, ◌≢◌, ◌≤◌, ℕ, true, ◌&&◌, List, Some, map, length, IfOk, IfErr}, List.{list_all}};
ghost use Rattle.sqlite.specs.{Order.{column}, declared.types.Value.TheVariants.{Text}};
ghost use Rattle.moo_value.specs.{declared.value.ObjNo.{ObjNo}, declared.value.Value.TheVariants.{Obj, List as a_list}, Value.{spread}};
ghost use Rattle.moo_value.specs.Literal.{Spells};
ghost use Rattle.moo_world.specs.{Answers.{object_list}, Petitions.{is_named, are_few, are_shallow}, World.{accept_fits, state_fits}};
ghost use Rattle.moo_cells.specs.{Reading.{calls_fit, SpellsNone, ShowsNone}, RowCells.{ShowsAccept, ShowsSlotState}};
ghost use Rattle.moo_cells.specs.declared.fault.RowFault.TheVariants.{Unreadable};

use crate::cell::text_at;
use crate::fault::RowFault;
use moo_rows::{ObjList, SlotState};
use moo_value::{ObjNo, Value, ValueList, read_whole_literal};
use moo_world::{MOST_ACCEPTED, are_few, are_named, are_shallow};
use sqlite::Row;
use std::alloc::Global;

/// The objects of a list. `Unreadable` if it has more than `MOST_ACCEPTED`, or something that isn't an object; `OutOfMemory`.
fn objects_in(alloc: Global, values: &[Value]) -> Result<ObjList, RowFault>
    // The list is just these objects.
    ensures ok { IfOk result (λ objects. values.now ≡ map Obj objects) }
    ensures fits { IfOk result (λ objects. length objects ≤ MOST_ACCEPTED) }
    // If the fault is `Unreadable`, the list has something else than objects, or too many of them.
    ensures err { IfErr result (λ fault. fault ≡ Unreadable →
        (objects : List ObjNo) → length objects ≤ MOST_ACCEPTED → values.now ≢ map Obj objects) }
{
    if values.len() > MOST_ACCEPTED {
        return Err(RowFault::Unreadable);
    }
    let mut objects = Vec::new(alloc);
    for value in values {
        match value {
            Value::Obj(object) => {
                if objects.push(*object).is_err() {
                    return Err(RowFault::OutOfMemory);
                }
            }
            _ => return Err(RowFault::Unreadable),
        }
    }
    Ok(ObjList::from_vec(objects))
}

/// The list of objects that a literal spells. `Unreadable` if it spells something else, or a list that is too long; `OutOfMemory`.
fn list_spelled(alloc: Global, bytes: &[u8]) -> Result<ObjList, RowFault>
    ensures ok { IfOk result (λ objects. Spells (object_list objects) bytes.now) }
    ensures fits { IfOk result (λ objects. accept_fits (Some objects) ≡ true) }
    // If the fault is `Unreadable`, the literal spells no list of objects within its limits.
    ensures err { IfErr result (λ fault. fault ≡ Unreadable → SpellsNone object_list (λ objects. accept_fits (Some objects)) bytes.now) }
{
    match read_whole_literal(alloc, bytes)? {
        Value::List(list) => objects_in(alloc, list.items()),
        _ => Err(RowFault::Unreadable),
    }
}

/// The accept list in a column: none if the text is empty, else the list that it spells. `Unreadable` if the cell shows neither;
/// `OutOfMemory`.
pub(crate) fn accept_at(alloc: Global, cells: &Row, at: usize) -> Result<Option<ObjList>, RowFault>
    // The cell has a text that shows the list.
    ensures ok { IfOk result (λ accept. (text : List ℕ) × ShowsAccept text accept × (column cells.now at ≡ Text text)) }
    ensures fits { IfOk result (λ accept. accept_fits accept ≡ true) }
    // If the fault is `Unreadable`, the cell has no text that shows a list within its limits.
    ensures err { IfErr result (λ fault. fault ≡ Unreadable → ShowsNone ShowsAccept accept_fits (column cells.now at)) }
{
    let text = text_at(cells, at)?;
    if text.is_empty() {
        return Ok(None);
    }
    let objects = list_spelled(alloc, text)?;
    Ok(Some(objects))
}

/// What a slot holds, from a column: it is clear if the text is empty, else it has the value that the text spells. `Unreadable` if the
/// cell shows neither; `OutOfMemory`.
pub(crate) fn state_at(alloc: Global, cells: &Row, at: usize) -> Result<SlotState, RowFault>
    // The cell has a text that shows it.
    ensures ok { IfOk result (λ state. (text : List ℕ) × ShowsSlotState text state × (column cells.now at ≡ Text text)) }
    ensures fits { IfOk result (λ state. state_fits state ≡ true) }
    // If the fault is `Unreadable`, the cell has no text that shows a value within its limits.
    ensures err { IfErr result (λ fault. fault ≡ Unreadable → ShowsNone ShowsSlotState state_fits (column cells.now at)) }
{
    let text = text_at(cells, at)?;
    if text.is_empty() {
        return Ok(SlotState::Clear);
    }
    let value = read_whole_literal(alloc, text)?;
    Ok(SlotState::Set(value))
}

/// Whether a petition may hold these calls: each has a name, and they are few and shallow enough. That the calls are within the limits of
/// values is known already.
fn may_be_held(calls: &ValueList) -> bool
    ensures { result ≡ (list_all is_named (spread calls.now) && (are_few calls.now && are_shallow calls.now)) }
{
    are_named(calls.items()) && are_few(calls) && are_shallow(calls)
}

/// The calls of a petition that a literal spells. `Unreadable` if it spells no list, or calls that no petition may hold; `OutOfMemory`.
fn calls_spelled(alloc: Global, bytes: &[u8]) -> Result<ValueList, RowFault>
    ensures ok { IfOk result (λ calls. Spells (a_list calls) bytes.now) }
    ensures fits { IfOk result (λ calls. calls_fit calls ≡ true) }
    // If the fault is `Unreadable`, the literal spells no calls that a petition may hold.
    ensures err { IfErr result (λ fault. fault ≡ Unreadable → SpellsNone a_list calls_fit bytes.now) }
{
    let Value::List(calls) = read_whole_literal(alloc, bytes)? else {
        return Err(RowFault::Unreadable);
    };
    if may_be_held(&calls) {
        Ok(calls)
    } else {
        Err(RowFault::Unreadable)
    }
}

/// The calls of a petition in a column. `Unreadable` if the cell has no text, or one that spells no calls that a petition may hold;
/// `OutOfMemory`.
pub(crate) fn calls_at(alloc: Global, cells: &Row, at: usize) -> Result<ValueList, RowFault>
    // The cell has a text that spells the calls.
    ensures ok { IfOk result (λ calls. (text : List ℕ) × Spells (a_list calls) text × (column cells.now at ≡ Text text)) }
    ensures fits { IfOk result (λ calls. calls_fit calls ≡ true) }
    // If the fault is `Unreadable`, the cell has no text that spells calls that a petition may hold.
    ensures err { IfErr result (λ fault. fault ≡ Unreadable →
        ShowsNone (λ text calls. Spells (a_list calls) text) calls_fit (column cells.now at)) }
{
    let text = text_at(cells, at)?;
    calls_spelled(alloc, text)
}
