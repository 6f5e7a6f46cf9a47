//! Changes of parent.

ghost use Rattle.moo_world.specs.{Calls.{chparent, named_call}, declared.name.CallName.TheVariants.{Chparent}, Rows.{IsGood}};
ghost use Rattle.moo_calls_shared.specs.Outcomes.{world_in, Does};

use moo_calls_shared::{Fault, Reason, rights, two_objects};
use moo_props::{reparent, sharing_definer};
use moo_rows::Rows;
use moo_tree::{is_under, valid};
use moo_value::{ObjNo, Value};
use moo_world::ZERO;
use std::alloc::Global;

/// `chparent(object, new-parent)`: puts an object under another parent, `#-1` for none, and answers 0. The object and its
/// descendants lose the properties that only their former ancestors define, and get those of their new ancestors. E_INVARG
/// if there is no such object, and if the new parent is neither an object nor `#-1`; E_PERM if the programmer neither owns
/// the object nor is a wizard, and then if it may not use the parent; E_RECMOVE if the parent is the object or a
/// descendant of it; E_INVARG if the object or a descendant defines a property of a name that the parent has.
/// LambdaMOO Programmer's Manual, 'Fundamental Operations on Objects'.
pub fn chparent<R: Rows>(
    rows: &mut R,
    alloc: Global,
    programmer: ObjNo,
    x: ObjNo,
    new: ObjNo,
) -> Result<Value, Fault>
    // The rows are good: sound rows of a well formed world, and petitions as they may be beside it.
    requires { IsGood (R.held rows.old).maps }
    // It does what the definition `chparent` says. If it is done, the rows are good, petitions and the count of batches stay, and what
    // stays keeps its number (`Does`). At its errors nothing changes; out of memory the rows may be half changed.
    ensures { Does (chparent (world_in (R.held rows.old)) programmer x new) (R.held rows.old) (R.held rows.new) result }
{
    if !valid(rows, x) {
        return Err(Fault::Moo(Reason::NoObject(x)));
    }
    if !rights::valid_or_nothing(rows, new) {
        return Err(Fault::Moo(Reason::NoPlace(new)));
    }
    if !rights::controls(rows, programmer, x) {
        return Err(Fault::Moo(Reason::NotControlled(x)));
    }
    if !rights::may_be_parent(rows, programmer, new) {
        return Err(Fault::Moo(Reason::NotFertile(new)));
    }
    if is_under(rows, new, x) {
        return Err(Fault::Moo(Reason::ParentBelow(new)));
    }
    if let Some(definer) = sharing_definer(alloc, rows, x, new)? {
        return Err(Fault::Moo(Reason::NameShared(definer)));
    }
    reparent(alloc, rows, x, new)?;
    Ok(ZERO)
}

/// Makes the call `chparent` with an object and its new parent. E_ARGS and E_TYPE for others, then the errors of the call.
pub(crate) fn chparent_given<R: Rows>(
    rows: &mut R,
    alloc: Global,
    programmer: ObjNo,
    args: &[Value],
) -> Result<Value, Fault>
    // The rows are good: sound rows of a well formed world, and petitions as they may be beside it.
    requires { IsGood (R.held rows.old).maps }
    // It does what `named_call` says of `Chparent`. If it is done, the rows are good, petitions and the count of batches stay, and what
    // stays keeps its number (`Does`). At its errors nothing changes; out of memory the rows may be half changed.
    ensures { Does (named_call (world_in (R.held rows.old)) programmer Chparent args.now) (R.held rows.old) (R.held rows.new) result }
{
    let (x, new) = two_objects(args)?;
    chparent(rows, alloc, programmer, x, new)
}
