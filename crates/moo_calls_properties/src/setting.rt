//! Setting properties.

ghost use Rattle.std.specs.Prelude.{◌≡◌, true};
ghost use Rattle.moo_world.specs.{Arguments.{fits}, PropertyCalls.{set_property}, Rows.{IsGood}};
ghost use Rattle.moo_calls_shared.specs.Outcomes.{world_in, Does};

use crate::slots::writable_slot;
use moo_calls_shared::Fault;
use moo_props::set_value;
use moo_rows::Rows;
use moo_value::{MooStr, ObjNo, Value};
use moo_world::ZERO;
use std::alloc::Global;

/// `set(object, name, value)` of a name that isn't built in: the object's own slot of the property has the value from now
/// on, and the answer is 0. E_PROPNF if the object has no property of the name; E_PERM if the programmer may not write
/// the object's own slot of it. Its owner and rights stay.
/// LambdaMOO Programmer's Manual, 'Operations on Properties'.
pub fn set_property<R: Rows>(
    rows: &mut R,
    alloc: Global,
    programmer: ObjNo,
    x: ObjNo,
    name: &MooStr,
    value: &Value,
) -> Result<Value, Fault>
    // The rows are good: sound rows of a well formed world, and petitions as they may be beside it.
    requires good { IsGood (R.held rows.old).maps }
    // The value nests at most 32 deep, and its numbers and texts are within their limits.
    requires fit { fits value.now ≡ true }
    // It does what the definition `set_property` says. If it is done, the rows are good, petitions and the count of batches stay, and what
    // stays keeps its number (`Does`). At its errors nothing changes; out of memory the rows may be half changed.
    ensures { Does (set_property (world_in (R.held rows.old)) programmer x name.now value.now) (R.held rows.old) (R.held rows.new) result }
{
    let found = writable_slot(rows, programmer, x, name)?;
    let id = found.id;
    let value = value.copy(alloc)?;
    set_value(rows, x, id, value)?;
    Ok(ZERO)
}
