//! Putting rows as the lines of a dump say.

ghost use Rattle.std.specs.Prelude.{◌≡◌, ◌≢◌, ◌<◌, ◌∷◌, [], true, Some, OnOk, IfOk, IfErr};
ghost use Rattle.moo_value.specs.{declared.value.ObjNo.{ObjNo}, declared.value.Value.TheVariants.{Obj, Str}};
ghost use Rattle.moo_rows.specs.{declared.row.ObjRow.{ObjRow}, declared.row.PetitionId.{PetitionId}};
ghost use Rattle.moo_rows.specs.{declared.row.PetitionRow.{PetitionRow}, declared.row.PropId.{PropId}, declared.row.PropRow.{PropRow}};
ghost use Rattle.moo_rows.specs.{declared.row.VerbRow.{VerbRow}, Maps.{with_object, with_slot}};
ghost use Rattle.moo_dump.specs.Dump.{object_values, verb_values};
ghost use Rattle.moo_load.specs.{Printed.{petition_values, slot_values}, Rows.{AreRead, property_taken, verb_taken, petition_taken}};
ghost use Rattle.moo_load.specs.{RowsOf.{dumped_slot}, Slots.{IsNextProperty, number_before}};
ghost use Rattle.moo_world.specs.{Objects.{Property}, Petitions.{petition_fits}};
ghost use Rattle.moo_world.specs.World.{Slot, row_fits, state_fits, verb_fits, is_property_name};

use crate::fault::{LineFault, LineResult};
use crate::object::read_object;
use crate::petition::read_petition;
use crate::property::read_property;
use crate::reason::DumpReason;
use crate::slot::{SlotLine, read_slot};
use crate::verb::read_verb;
use moo_memory::Flat;
use moo_rows::{PetitionId, PropId, Rows, VerbId};
use moo_value::{ObjNo, Value};
use std::alloc::Global;

/// Puts an object into the rows. The error is why the values can't be read; or OutOfMemory.
pub(crate) fn take_object(alloc: Global, values: &[Value], rows: &mut Flat) -> LineResult<()>
    // The rows are within their limits, and fewer than 2^63 batches were accepted.
    requires { AreRead rows.old.maps }
    // The rows are within their limits afterwards too, and fewer than 2^63 batches were accepted.
    ensures read { OnOk result (AreRead rows.new.maps) }
    // If the values are those of an object's line, that object is put.
    ensures put { OnOk result ((x : ObjNo) (row : ObjRow) → values.now ≡ object_values x row → rows.new ≡ with_object rows.old x row) }
    // There is a fault, but for out of memory, only if the values aren't those of the line of an object within its limits.
    ensures err { IfErr result (λ fault. fault ≢ LineFault.OutOfMemory → (x : ObjNo) (row : ObjRow) → row_fits row ≡ true →
        values.now ≢ object_values x row) }
{
    let (number, row) = read_object(alloc, values)?;
    rows.put_object(number, row)?;
    Ok(())
}

/// Puts a property into the rows, under the next number. The error is why the values can't be read, or NoNumber; or OutOfMemory.
pub(crate) fn take_property(alloc: Global, values: &[Value], rows: &mut Flat) -> LineResult<()>
    // The rows are within their limits, and fewer than 2^63 batches were accepted.
    requires { AreRead rows.old.maps }
    // The rows are within their limits afterwards too, and fewer than 2^63 batches were accepted.
    ensures read { OnOk result (AreRead rows.new.maps) }
    // If the values are those of a property's line, that property is put under the next number.
    ensures put { OnOk result ((row : PropRow) → values.now ≡ Obj row.definer ∷ Str row.name ∷ [] →
        rows.new.maps ≡ property_taken rows.old.maps row) }
    // There is a fault, but for out of memory, only if no number is left, or the values aren't those of a property that may have its name.
    ensures err { IfErr result (λ fault. fault ≢ LineFault.OutOfMemory → rows.old.maps.head.next_prop < 4294967295 → (row : PropRow) →
        is_property_name row.name ≡ true
        → values.now ≢ Obj row.definer ∷ Str row.name ∷ []) }
{
    let row = read_property(alloc, values)?;
    let mut head = rows.head();
    let id = head.next_prop;
    if id == u32::MAX {
        return Err(LineFault::Unreadable(DumpReason::NoNumber));
    }
    rows.put_prop(PropId(id), row)?;
    head.next_prop = id + 1;
    rows.set_head(head);
    Ok(())
}

/// Puts a verb into the rows, under the next number. The error is why the values can't be read, or NoNumber; or OutOfMemory.
pub(crate) fn take_verb(alloc: Global, values: &[Value], rows: &mut Flat) -> LineResult<()>
    // The rows are within their limits, and fewer than 2^63 batches were accepted.
    requires { AreRead rows.old.maps }
    // The rows are within their limits afterwards too, and fewer than 2^63 batches were accepted.
    ensures read { OnOk result (AreRead rows.new.maps) }
    // If the values are those of a verb's line, that verb is put under the next number.
    ensures put { OnOk result ((x : ObjNo) (row : VerbRow) → values.now ≡ verb_values x row →
        rows.new.maps ≡ verb_taken rows.old.maps x row) }
    // There is a fault, but for out of memory, only if no number is left, or the values aren't those of a verb within its limits.
    ensures err { IfErr result (λ fault. fault ≢ LineFault.OutOfMemory → rows.old.maps.head.next_verb < 4294967295 →
        (x : ObjNo) (row : VerbRow) → verb_fits row ≡ true
        → values.now ≢ verb_values x row) }
{
    let (object, row) = read_verb(alloc, values)?;
    let mut head = rows.head();
    let id = head.next_verb;
    if id == u32::MAX {
        return Err(LineFault::Unreadable(DumpReason::NoNumber));
    }
    rows.put_verb((object, VerbId(id)), row)?;
    head.next_verb = id + 1;
    rows.set_head(head);
    Ok(())
}

/// Puts a petition into the rows; the number of the next petition is above it. The error is why the values can't be read; or OutOfMemory.
pub(crate) fn take_petition(alloc: Global, values: &[Value], rows: &mut Flat) -> LineResult<()>
    // The rows are within their limits, and fewer than 2^63 batches were accepted.
    requires { AreRead rows.old.maps }
    // The rows are within their limits afterwards too, and fewer than 2^63 batches were accepted.
    ensures read { OnOk result (AreRead rows.new.maps) }
    // If the values are those of a petition's line, that petition is put under its number.
    ensures put { OnOk result ((id : PetitionId) (row : PetitionRow) → values.now ≡ petition_values id row →
        rows.new.maps ≡ petition_taken rows.old.maps id row) }
    // There is a fault, but for out of memory, only if the values aren't those of the line of a petition within its limits.
    ensures err { IfErr result (λ fault. fault ≢ LineFault.OutOfMemory → (id : PetitionId) (row : PetitionRow) → 0 < id.0 →
        id.0 < 4294967295 → petition_fits row ≡ true
        → values.now ≢ petition_values id row) }
{
    let (id, row) = read_petition(alloc, values)?;
    rows.put_petition(id, row)?;
    let mut head = rows.head();
    head.next_petition = head.next_petition.max(id.0 + 1);
    rows.set_head(head);
    Ok(())
}

/// The slot that was put last.
#[derive(Clone, Copy)]
pub(crate) struct LastSlot {
    pub(crate) object: ObjNo,
    pub(crate) definer: ObjNo,
    pub(crate) id: PropId,
}

/// The number of the property whose slot was put last, if that was a slot on this object of a property of this definer; else 0.
fn number_before(last: LastSlot, object: ObjNo, definer: ObjNo) -> PropId
    ensures { result ≡ number_before last object definer }
{
    if last.object == object && last.definer == definer {
        last.id
    } else {
        PropId(0)
    }
}

/// The property of a slot; `None` if it isn't the next one of its definer. A dump has the slots of an object that one definer has given it
/// in the order of the definer's properties, so that the next one is the property after the last.
fn property_of<R: Rows>(rows: &R, last: LastSlot, slot: &SlotLine) -> Option<PropId>
    // If the slot is of the next property of its definer, the answer is that property.
    ensures { (id : PropId) → IsNextProperty (R.held rows.now).maps last slot.now.object (slot.now.definer, slot.now.name) id →
        result ≡ Some id }
{
    let after = number_before(last, slot.object, slot.definer);
    let id = rows.next_defined(slot.definer, after)?;
    let row = rows.prop(id)?;
    if row.name == slot.name {
        Some(id)
    } else {
        None
    }
}

/// Why a slot isn't that of the next property of its definer: the definer isn't an object, another slot comes first, or the definer has no
/// further property.
fn slot_order_reason<R: Rows>(rows: &R, last: LastSlot, slot: &SlotLine) -> DumpReason {
    if rows.object(slot.definer).is_none() {
        return DumpReason::NoDefiner(slot.definer);
    }
    let after = number_before(last, slot.object, slot.definer);
    match rows.next_defined(slot.definer, after) {
        Some(id) => DumpReason::SlotFirst(id),
        None => DumpReason::NoProperty,
    }
}

/// Puts a slot into the rows, and answers it as the one that was put last. The error is why the values can't be read, or that another slot
/// belongs here; or OutOfMemory.
pub(crate) fn take_slot(
    alloc: Global,
    values: &[Value],
    last: LastSlot,
    rows: &mut Flat,
) -> LineResult<LastSlot>
    // The rows are within their limits, and fewer than 2^63 batches were accepted.
    requires { AreRead rows.old.maps }
    // The rows are within their limits afterwards too, and fewer than 2^63 batches were accepted.
    ensures read { OnOk result (AreRead rows.new.maps) }
    // If the values are those of the slot of the next property of its definer, the slot is put under the property's number, as the last.
    ensures put { IfOk result (λ put. (x : ObjNo) (p : Property) (k : Slot) (id : PropId) →
        values.now ≡ slot_values x p.0 p.1 (dumped_slot k)
        → IsNextProperty rows.old.maps last x p id → (put ≡ record { object = x; definer = p.0; id = id })
        × (rows.new ≡ with_slot rows.old (x, id) (dumped_slot k))) }
    // There is a fault, but for out of memory, only if the values aren't those of the slot of the next property, within its limits.
    ensures err { IfErr result (λ fault. fault ≢ LineFault.OutOfMemory → (x : ObjNo) (p : Property) (k : Slot) (id : PropId) →
        state_fits k.state ≡ true
        → IsNextProperty rows.old.maps last x p id → values.now ≢ slot_values x p.0 p.1 (dumped_slot k)) }
{
    let slot = read_slot(alloc, values)?;
    let Some(id) = property_of(rows, last, &slot) else {
        return Err(LineFault::Unreadable(slot_order_reason(rows, last, &slot)));
    };
    let last = LastSlot {
        object: slot.object,
        definer: slot.definer,
        id,
    };
    rows.put_slot((slot.object, id), slot.row)?;
    Ok(last)
}
