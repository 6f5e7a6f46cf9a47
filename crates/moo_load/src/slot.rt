//! Reading the values of a slot's line.

ghost use Rattle.std.specs.Prelude.{◌≡◌, ◌≢◌, true, ◌&&◌, IfOk, IfErr};
ghost use Rattle.moo_value.specs.{declared.value.ObjNo.{ObjNo}, declared.value.Value.TheVariants.{Str}};
ghost use Rattle.moo_rows.specs.{declared.row.Bits.{Bits}, declared.row.SlotRow.{SlotRow}, declared.row.SlotState.{SlotState}};
ghost use Rattle.moo_rows.specs.Bits.{letters_of};
ghost use Rattle.moo_dump.specs.Dump.{state_values};
ghost use Rattle.moo_load.specs.Printed.{slot_values};
ghost use Rattle.moo_world.specs.{Arguments.{is_number}, Objects.{Name}, World.{state_fits}};

use crate::fault::{LineFault, LineResult};
use crate::reason::DumpReason;
use crate::value::{object_of, text_of};
use moo_rows::{Bits, SlotRow, SlotState};
use moo_value::{MooStr, ObjNo, Value, fits};
use std::alloc::Global;

/// What the line of a slot says: the object that it is on, its property by definer and name, and its row.
#[derive(Drop)]
pub(crate) struct SlotLine {
    pub(crate) object: ObjNo,
    pub(crate) definer: ObjNo,
    pub(crate) name: MooStr,
    pub(crate) row: SlotRow,
}

/// The rights on a property that a string spells, in the order `rwc`. NoText, NoLetters, or Letters if they are in another order.
fn bits_of(value: &Value) -> LineResult<Bits>
    ensures ok { IfOk result (λ bits. value.now ≡ Str (letters_of bits)) }
    // There is a fault only if the value isn't the string of such letters.
    ensures err { IfErr result (λ _. (bits : Bits) → value.now ≢ Str (letters_of bits)) }
{
    let text = text_of(value, "letters")?;
    match Bits::read(text) {
        Some(bits) if bits.letters().as_bytes() == text.bytes() => Ok(bits),
        Some(bits) => Err(LineFault::Unreadable(DumpReason::Letters(bits))),
        None => Err(LineFault::Unreadable(DumpReason::NoLetters)),
    }
}

/// What a slot holds, by the last values of its line: clear for 0, set for 1 and a value. NoState for others; OutOfMemory: memory ran out.
fn state_of(alloc: Global, values: &[Value]) -> LineResult<SlotState>
    // The values are those that a dump writes of the state.
    ensures shown { IfOk result (λ state. values.now ≡ state_values state) }
    ensures fits { IfOk result (λ state. state_fits state ≡ true) }
    // There is a fault, but for out of memory, only if a dump writes the values of no state within the limits.
    ensures err { IfErr result (λ fault. fault ≢ LineFault.OutOfMemory → (state : SlotState) → state_fits state ≡ true →
        values.now ≢ state_values state) }
{
    match values {
        [Value::Int(0)] => Ok(SlotState::Clear),
        [Value::Int(1), value] => {
            if !fits(value) {
                return Err(LineFault::Unreadable(DumpReason::NoState));
            }
            let value = value.copy(alloc)?;
            Ok(SlotState::Set(value))
        }
        _ => Err(LineFault::Unreadable(DumpReason::NoState)),
    }
}

/// The slot that the values of its line say. The error is the first value, from left to right, that isn't as a dump has it, or their
/// count; or OutOfMemory.
pub(crate) fn read_slot(alloc: Global, values: &[Value]) -> LineResult<SlotLine>
    // The values are those of the slot's line.
    ensures shown { IfOk result (λ slot. values.now ≡ slot_values slot.object slot.definer slot.name slot.row) }
    // The owner and the value are within their limits.
    ensures fits { IfOk result (λ slot. (is_number slot.row.owner && state_fits slot.row.state) ≡ true) }
    // There is a fault, but for out of memory, only if the values aren't those of the line of a slot whose value is within its limits.
    ensures err { IfErr result (λ fault. fault ≢ LineFault.OutOfMemory → (x definer : ObjNo) (name : Name) (row : SlotRow) →
        state_fits row.state ≡ true
        → values.now ≢ slot_values x definer name row) }
{
    let [object, definer, name, owner, letters, state @ ..] = values else {
        return Err(LineFault::Unreadable(DumpReason::Count(
            "a slot has 6 values, or 7 if it is set",
        )));
    };
    Ok(SlotLine {
        object: object_of(object, "object")?,
        definer: object_of(definer, "definer")?,
        name: text_of(name, "name")?.copy(alloc)?,
        row: SlotRow {
            owner: object_of(owner, "owner")?,
            bits: bits_of(letters)?,
            state: state_of(alloc, state)?,
        },
    })
}
