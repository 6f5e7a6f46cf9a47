//! New properties.

ghost use Rattle.std.specs.{Prelude.{◌≡◌, ◌<◌, true, false, IfOk, OnOk}, FinMap.{insert}};
ghost use Rattle.moo_world.specs.{Arguments.{fits}, Changes.{clashes, property_added}, Rows.{world_of, prop_id, IsGood}};
ghost use Rattle.moo_world.specs.{World.{is_object, is_property_name}, Keeps.{Keeps}};
ghost use Rattle.moo_props.specs.Defining.{with_definition};

use crate::slots::{Origin, exchange_slots};
use moo_rows::{Bits, PropId, PropRow, Rows, SlotRow, SlotState};
use moo_tree::owners_under;
use moo_value::{MooStr, ObjNo, Value};
use std::alloc::{AllocError, Global};

/// Puts the row of a new property that x defines, raises the number of the next property by one, and answers the number of this one. An
/// `Err` is a lack of memory.
fn put_definition<R: Rows>(rows: &mut R, x: ObjNo, name: MooStr) -> Result<PropId, AllocError>
    // A number is left for the property.
    requires { (R.held rows.old).maps.head.next_prop < 4294967295 }
    // The row is put, and the counter is one higher.
    ensures rows { OnOk result (R.held rows.new ≡ with_definition x name (R.held rows.old)) }
    // The answer is the number that was to be the next.
    ensures id { IfOk result (λ id. id.0 ≡ (R.held rows.old).maps.head.next_prop) }
{
    let mut head = rows.head();
    let id = PropId(head.next_prop);
    head.next_prop += 1;
    rows.set_head(head);
    rows.put_prop(id, PropRow { definer: x, name })?;
    Ok(id)
}

/// Defines a property on x, which must clash with no other of its name: on x it has the value, owner and bits;
/// each descendant of x gets a clear slot with the bits, and as owner its own if the bit c is set, else the owner. The
/// answer is the number of the property, which is never given again. No other property changes.
///
/// The only error is a lack of memory, after which the rows may be half changed.
///
/// LambdaMOO Programmer's Manual, 'Operations on Properties': `add_property`.
pub fn define<R: Rows>(
    alloc: Global,
    rows: &mut R,
    x: ObjNo,
    name: MooStr,
    value: Value,
    owner: ObjNo,
    bits: Bits,
) -> Result<PropId, AllocError>
    // The rows are good: sound rows of a well formed world, and petitions as they may be beside it.
    requires good { IsGood (R.held rows.old).maps }
    // x is an object.
    requires object { is_object (world_of (R.held rows.old).maps) x ≡ true }
    // The name is one that a property may have.
    requires name { is_property_name name ≡ true }
    // Neither x nor an ancestor or a descendant of it defines a property of the name.
    requires free { clashes (world_of (R.held rows.old).maps) x name ≡ false }
    // A number is left for the property.
    requires left { (R.held rows.old).maps.head.next_prop < 4294967295 }
    // Lists nest at most 32 deep in the value.
    requires fit { fits value ≡ true }
    // The world has one property more: set on x, clear on each descendant.
    ensures world { OnOk result (world_of (R.held rows.new).maps ≡ property_added (world_of (R.held rows.old).maps) x name
        (record { definer = x; owner = owner; bits = bits; state = SlotState.Set value })) }
    // The rows are those of a well formed world; what stays keeps its number; petitions, count of batches and what the rows are over stay.
    ensures kept { OnOk result (Keeps (R.held rows.old) (R.held rows.new)) }
    // The answer is the number that was to be the next.
    ensures id { IfOk result (λ id. id.0 ≡ (R.held rows.old).maps.head.next_prop) }
    // Of the rows of properties only that of the new property is new.
    ensures props { OnOk result (let old = (R.held rows.old).maps in
        (R.held rows.new).maps.props ≡ insert old.props (prop_id old.head.next_prop) (record { definer = x; name = name })) }
{
    let under = owners_under(alloc, rows, x)?;
    let id = put_definition(rows, x, name)?;
    exchange_slots(
        rows,
        under.as_slice(),
        x,
        &[],
        &[],
        &[Origin { id, owner, bits }],
    )?;
    let own = SlotRow {
        owner,
        bits,
        state: SlotState::Set(value),
    };
    rows.put_slot((x, id), own)?;
    Ok(id)
}
