//! The slot that an object has of a property: its value, and its owner and bits.

ghost use Rattle.std.specs.{Prelude.{◌≡◌, is_some, true, false, OnOk}, FinMap.{get}};
ghost use Rattle.moo_world.specs.{Changes.{cleared, value_set, info_set, with_slot_of}, Rows.{world_of, IsGood}, Arguments.{fits}};
ghost use Rattle.moo_world.specs.{World.{state_fits}, Keeps.{Keeps}, Numbers.{IsSameButSlots}};
ghost use Rattle.moo_props.specs.Names.{defines, spelling_of};

use moo_rows::{Bits, PropId, Row, Rows, SlotRow, SlotState};
use moo_value::{ObjNo, Value};
use std::alloc::{AllocError, Global};

/// Sets the state of the slot that x has of a property: clear, or a value. The owner and the bits stay. The only error is a lack of memory.
pub(crate) fn put_state<R: Rows>(
    rows: &mut R,
    x: ObjNo,
    id: PropId,
    state: SlotState,
) -> Result<(), AllocError>
    // The rows are good: sound rows of a well formed world, and petitions as they may be beside it.
    requires good { IsGood (R.held rows.old).maps }
    // x has a slot of the property.
    requires has { is_some (get (R.held rows.old).maps.slots (x, id)) ≡ true }
    // A slot on the object that defines the property isn't cleared.
    requires set { state ≡ SlotState.Clear → defines (R.held rows.old).maps x id ≡ false }
    // If the state is a value, lists nest at most 32 deep in it.
    requires fit { state_fits state ≡ true }
    // The world has the slot with this state.
    ensures world { OnOk result (world_of (R.held rows.new).maps
        ≡ with_slot_of (world_of (R.held rows.old).maps) x (spelling_of (R.held rows.old).maps id) (λ s. record s { state = state })) }
    // The rows are those of a well formed world; what stays keeps its number; petitions, count of batches and what the rows are over stay.
    ensures kept { OnOk result (Keeps (R.held rows.old) (R.held rows.new)) }
    // Only slots change.
    ensures rest { OnOk result (IsSameButSlots (R.held rows.old).maps (R.held rows.new).maps) }
{
    let (owner, bits) = match rows.slot((x, id)) {
        None => unreachable!(),
        Some(slot) => (slot.owner, slot.bits),
    };
    rows.put_slot((x, id), SlotRow { owner, bits, state })?;
    Ok(())
}

/// Sets the value of a property on x alone; lists nest at most 32 deep in it. The owner and the bits stay. The only error is a lack of
/// memory.
///
/// LambdaMOO Programmer's Manual, 'Getting and Setting the Values of Properties'.
pub fn set_value<R: Rows>(
    rows: &mut R,
    x: ObjNo,
    id: PropId,
    value: Value,
) -> Result<(), AllocError>
    // The rows are good: sound rows of a well formed world, and petitions as they may be beside it.
    requires good { IsGood (R.held rows.old).maps }
    // Lists nest at most 32 deep in the value.
    requires fit { fits value ≡ true }
    // x has a slot of the property.
    requires has { is_some (get (R.held rows.old).maps.slots (x, id)) ≡ true }
    // The world has the slot set to the value.
    ensures world { OnOk result (world_of (R.held rows.new).maps
        ≡ value_set (world_of (R.held rows.old).maps) x (spelling_of (R.held rows.old).maps id) value) }
    // The rows are those of a well formed world; what stays keeps its number; petitions, count of batches and what the rows are over stay.
    ensures kept { OnOk result (Keeps (R.held rows.old) (R.held rows.new)) }
{
    put_state(rows, x, id, SlotState::Set(value))
}

/// Clears a property that x has and doesn't define, so that x reads what its parent reads. The only error is a lack of memory.
///
/// LambdaMOO Programmer's Manual, 'Operations on Properties': `clear_property`.
pub fn clear<R: Rows>(rows: &mut R, x: ObjNo, id: PropId) -> Result<(), AllocError>
    // The rows are good: sound rows of a well formed world, and petitions as they may be beside it.
    requires good { IsGood (R.held rows.old).maps }
    // x has a slot of the property.
    requires has { is_some (get (R.held rows.old).maps.slots (x, id)) ≡ true }
    // x doesn't define the property.
    requires inherited { defines (R.held rows.old).maps x id ≡ false }
    // The world has the slot cleared.
    ensures world { OnOk result (world_of (R.held rows.new).maps
        ≡ cleared (world_of (R.held rows.old).maps) x (spelling_of (R.held rows.old).maps id)) }
    // The rows are those of a well formed world; what stays keeps its number; petitions, count of batches and what the rows are over stay.
    ensures kept { OnOk result (Keeps (R.held rows.old) (R.held rows.new)) }
{
    put_state(rows, x, id, SlotState::Clear)
}

/// Sets the owner and the bits of a property on x alone. What objects read and the definition of the property stay. The only error is a
/// lack of memory.
///
/// LambdaMOO Programmer's Manual, 'Operations on Properties': `set_property_info`.
pub fn set_info<R: Rows>(
    alloc: Global,
    rows: &mut R,
    x: ObjNo,
    id: PropId,
    owner: ObjNo,
    bits: Bits,
) -> Result<(), AllocError>
    // The rows are good: sound rows of a well formed world, and petitions as they may be beside it.
    requires good { IsGood (R.held rows.old).maps }
    // x has a slot of the property.
    requires has { is_some (get (R.held rows.old).maps.slots (x, id)) ≡ true }
    // The world has the slot with this owner and these bits.
    ensures world { OnOk result (world_of (R.held rows.new).maps
        ≡ info_set (world_of (R.held rows.old).maps) x (spelling_of (R.held rows.old).maps id) owner bits) }
    // The rows are those of a well formed world; what stays keeps its number; petitions, count of batches and what the rows are over stay.
    ensures kept { OnOk result (Keeps (R.held rows.old) (R.held rows.new)) }
    // Only slots change.
    ensures rest { OnOk result (IsSameButSlots (R.held rows.old).maps (R.held rows.new).maps) }
{
    let mut row = match rows.slot((x, id)) {
        None => unreachable!(),
        Some(row) => row.copy(alloc)?,
    };
    row.owner = owner;
    row.bits = bits;
    rows.put_slot((x, id), row)?;
    Ok(())
}
