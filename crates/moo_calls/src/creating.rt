//! Making objects.

ghost use Rattle.std.specs.Prelude.{◌≡◌, true, OnOk};
ghost use Rattle.moo_world.specs.{Rows.{IsGood}, Creation.{next_object, owner_or_self}, Quota.{may_afford, charged}};
ghost use Rattle.moo_world.specs.{Calls.{create, named_call, unfit_parent}, declared.name.CallName.TheVariants.{Create}, Keeps.{Keeps}};
ghost use Rattle.moo_world.specs.Numbers.{IsSameButSlots};
ghost use Rattle.moo_calls_shared.specs.Outcomes.{world_in, Does};
ghost use Rattle.moo_calls.specs.Quotas.{has_one_left, quota_given};

use moo_calls_shared::{Fault, Reason, parent_and_owner, rights};
use moo_props::{make_object, quota_of, take_quota};
use moo_rows::Rows;
use moo_tree::{is_nothing, valid};
use moo_value::{ObjNo, Value};
use std::alloc::{AllocError, Global};

/// The number that the next new object gets, one more than the greatest that was ever given; `None` if 2,147,483,647 has been given.
/// (`Rows::next_object` is the next one that is there.)
fn next_object<R: Rows>(rows: &R) -> Option<ObjNo>
    ensures { result ≡ next_object (world_in (R.held rows.now)) }
{
    let top = rows.head().top;
    if top < i32::MAX {
        Some(ObjNo(top + 1))
    } else {
        None
    }
}

/// The owner of the new object x: x itself if the owner given is `#-1`, else the owner given.
fn owner_or_self(x: ObjNo, owner: ObjNo) -> ObjNo
    ensures { result ≡ owner_or_self x owner }
{
    if is_nothing(owner) { x } else { owner }
}

/// The quota of the owner given: how many objects may still be made for it. `None` if `#-1` was given, or if the owner has no quota.
fn quota_given<R: Rows>(rows: &R, owner: ObjNo) -> Option<i64>
    // The rows are good: sound rows of a well formed world, and petitions as they may be beside it.
    requires { IsGood (R.held rows.now).maps }
    ensures quota { result ≡ quota_given (world_in (R.held rows.now)) owner }
    // The quota has one left, or there is no quota, if and only if the owner may afford one more object.
    ensures left { has_one_left result ≡ may_afford (world_in (R.held rows.now)) owner }
{
    if is_nothing(owner) {
        None
    } else {
        quota_of(rows, owner)
    }
}

/// Whether a quota is above 0, or there is no quota.
fn has_one_left(quota: Option<i64>) -> bool
    ensures { result ≡ has_one_left quota }
{
    match quota {
        Some(left) => 0 < left,
        None => true,
    }
}

/// Takes one from the owner's quota, if there is one. The only error is a lack of memory.
fn charge<R: Rows>(rows: &mut R, owner: ObjNo, quota: Option<i64>) -> Result<(), AllocError>
    // The rows are good: sound rows of a well formed world, and petitions as they may be beside it.
    requires good { IsGood (R.held rows.old).maps }
    // The quota is the owner's, and there is no quota if the owner is `#-1`.
    requires quota { quota ≡ quota_given (world_in (R.held rows.old)) owner }
    // The quota is above 0, or there is no quota.
    requires left { has_one_left quota ≡ true }
    // The owner's quota, if there is one, is one lower, and the world is as it was otherwise.
    ensures world { OnOk result (world_in (R.held rows.new) ≡ charged (world_in (R.held rows.old)) owner) }
    // The rows are good ones, what stays keeps its number, and the petitions and the count of batches are as they were.
    ensures kept { OnOk result (Keeps (R.held rows.old) (R.held rows.new)) }
    // Slots alone were written.
    ensures rest { OnOk result (IsSameButSlots (R.held rows.old).maps (R.held rows.new).maps) }
{
    if quota.is_some() {
        take_quota(rows, owner)?;
    }
    Ok(())
}

/// Why the programmer may not make an object under this parent: it is neither fertile nor the programmer's, or it isn't an object.
fn unfit_parent<R: Rows>(rows: &R, parent: ObjNo) -> Reason
    ensures { result ≡ unfit_parent (world_in (R.held rows.now)) parent }
{
    if valid(rows, parent) {
        Reason::NotFertile(parent)
    } else {
        Reason::NoParent(parent)
    }
}

/// `create(parent, owner)`: makes an object under a parent, takes one from the owner's quota, and answers the new object.
/// The owner is the programmer if none is given, and the object itself if it is `#-1`. E_PERM if the programmer
/// may not use the parent, and then if it may not make an object for the owner; E_INVARG if the owner is neither an
/// object nor `#-1`; E_QUOTA if the owner's quota is used up. Full if every number of an object has been given.
/// LambdaMOO Programmer's Manual, 'Fundamental Operations on Objects'.
pub fn create<R: Rows>(
    rows: &mut R,
    alloc: Global,
    programmer: ObjNo,
    parent: ObjNo,
    owner: ObjNo,
) -> Result<Value, Fault>
    // The rows are good: sound rows of a well formed world, and petitions as they may be beside it.
    requires { IsGood (R.held rows.old).maps }
    // It does what the definition `create` says. If it is done, the rows are good, petitions and the count of batches stay, and what stays
    // keeps its number (`Does`). At its errors nothing changes; out of memory the rows may be half changed.
    ensures { Does (create (world_in (R.held rows.old)) programmer parent owner) (R.held rows.old) (R.held rows.new) result }
{
    if !rights::may_be_parent(rows, programmer, parent) {
        return Err(Fault::Moo(unfit_parent(rows, parent)));
    }
    if !rights::may_make_owner(rows, programmer, owner) {
        return Err(Fault::Moo(Reason::NoOwner(owner)));
    }
    if !rights::valid_or_nothing(rows, owner) {
        return Err(Fault::Moo(Reason::NoPlace(owner)));
    }
    // The quota is looked up once: making an object leaves that of its owner as it is.
    let quota = quota_given(rows, owner);
    if !has_one_left(quota) {
        return Err(Fault::Moo(Reason::NoQuota(owner)));
    }
    let Some(x) = next_object(rows) else {
        return Err(Fault::Full);
    };
    make_object(alloc, rows, x, parent, owner_or_self(x, owner))?;
    charge(rows, owner, quota)?;
    Ok(Value::Obj(x))
}

/// Makes the call `create` with a parent, and an owner or none. E_ARGS and E_TYPE for others, then the errors of the call.
pub(crate) fn create_given<R: Rows>(
    rows: &mut R,
    alloc: Global,
    programmer: ObjNo,
    args: &[Value],
) -> Result<Value, Fault>
    // The rows are good: sound rows of a well formed world, and petitions as they may be beside it.
    requires { IsGood (R.held rows.old).maps }
    // It does what `named_call` says of `Create`. If it is done, the rows are good, petitions and the count of batches stay, and what stays
    // keeps its number (`Does`). At its errors nothing changes; out of memory the rows may be half changed.
    ensures { Does (named_call (world_in (R.held rows.old)) programmer Create args.now) (R.held rows.old) (R.held rows.new) result }
{
    let (parent, owner) = parent_and_owner(args, programmer)?;
    create(rows, alloc, programmer, parent, owner)
}
