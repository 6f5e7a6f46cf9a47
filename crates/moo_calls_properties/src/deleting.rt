//! Deleting properties.

ghost use Rattle.moo_world.specs.{PropertyCalls.{delete_property}, Rows.{IsGood}};
ghost use Rattle.moo_calls_shared.specs.Outcomes.{world_in, Does};

use crate::definitions::own_property;
use moo_calls_shared::{Fault, Reason, rights};
use moo_props::undefine;
use moo_rows::Rows;
use moo_tree::valid;
use moo_value::{MooStr, ObjNo, Value};
use moo_world::ZERO;
use std::alloc::Global;

/// `delete_property(object, name)`: takes a property that the object itself defines from it and from all its descendants.
/// The answer is 0. E_INVARG if there is no such object; E_PERM if the programmer may not write the object; E_PROPNF if
/// the object defines no property of the name.
/// LambdaMOO Programmer's Manual, 'Operations on Properties'.
pub fn delete_property<R: Rows>(
    rows: &mut R,
    alloc: Global,
    programmer: ObjNo,
    x: ObjNo,
    name: &MooStr,
) -> Result<Value, Fault>
    // The rows are good: sound rows of a well formed world, and petitions as they may be beside it.
    requires { IsGood (R.held rows.old).maps }
    // It does what the definition `delete_property` says. If it is done, the rows are good, petitions and the count of batches stay, and
    // what stays keeps its number (`Does`). At its errors nothing changes; out of memory the rows may be half changed.
    ensures { Does (delete_property (world_in (R.held rows.old)) programmer x name.now) (R.held rows.old) (R.held rows.new) result }
{
    if !valid(rows, x) {
        return Err(Fault::Moo(Reason::NoObject(x)));
    }
    if !rights::may_write_object(rows, programmer, x) {
        return Err(Fault::Moo(Reason::NoObjectW(x)));
    }
    let Some(id) = own_property(rows, x, name) else {
        return Err(Fault::Moo(Reason::NotDefined(x)));
    };
    undefine(alloc, rows, x, id)?;
    Ok(ZERO)
}
