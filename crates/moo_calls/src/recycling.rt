//! Removing objects.

ghost use Rattle.moo_world.specs.{Calls.{recycle, named_call}, declared.name.CallName.TheVariants.{Recycle}, Rows.{IsGood}};
ghost use Rattle.moo_calls_shared.specs.Outcomes.{world_in, Does};

use moo_calls_shared::{Fault, Reason, one_object, rights};
use moo_props::{drop_object, return_quota};
use moo_rows::Rows;
use moo_value::{ObjNo, Value};
use moo_world::ZERO;
use std::alloc::Global;

/// `recycle(object)`: removes an object with its properties and verbs, gives one back to the quota of its former owner, and answers 0. Its
/// children go to its parent, and its contents to `#-1`. The quota is read when the object is gone, and a quota of the greatest integer
/// stays. E_INVARG if there is no such object, and then E_PERM if the programmer neither owns it nor is a wizard.
/// LambdaMOO Programmer's Manual, 'Fundamental Operations on Objects'.
pub fn recycle<R: Rows>(
    rows: &mut R,
    alloc: Global,
    programmer: ObjNo,
    x: ObjNo,
) -> Result<Value, Fault>
    // The rows are good: sound rows of a well formed world, and petitions as they may be beside it.
    requires { IsGood (R.held rows.old).maps }
    // It does what the definition `recycle` says. If it is done, the rows are good, petitions and the count of batches stay, and what stays
    // keeps its number (`Does`). At its errors nothing changes; out of memory the rows may be half changed.
    ensures { Does (recycle (world_in (R.held rows.old)) programmer x) (R.held rows.old) (R.held rows.new) result }
{
    let owner = match rows.object(x) {
        None => return Err(Fault::Moo(Reason::NoObject(x))),
        Some(row) => row.owner,
    };
    if !rights::controls(rows, programmer, x) {
        return Err(Fault::Moo(Reason::NotControlled(x)));
    }
    let _dropped = drop_object(alloc, rows, x)?;
    return_quota(rows, owner)?;
    Ok(ZERO)
}

/// Makes the call `recycle` with an object. E_ARGS and E_TYPE for others, then the errors of the call.
pub(crate) fn recycle_given<R: Rows>(
    rows: &mut R,
    alloc: Global,
    programmer: ObjNo,
    args: &[Value],
) -> Result<Value, Fault>
    // The rows are good: sound rows of a well formed world, and petitions as they may be beside it.
    requires { IsGood (R.held rows.old).maps }
    // It does what `named_call` says of `Recycle`. If it is done, the rows are good, petitions and the count of batches stay, and what
    // stays keeps its number (`Does`). At its errors nothing changes; out of memory the rows may be half changed.
    ensures { Does (named_call (world_in (R.held rows.old)) programmer Recycle args.now) (R.held rows.old) (R.held rows.new) result }
{
    recycle(rows, alloc, programmer, one_object(args)?)
}
