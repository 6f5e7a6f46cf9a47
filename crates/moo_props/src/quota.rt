//! The quota of an owner: how many more objects may be made for it.
//! LambdaMOO Programmer's Manual, 'Fundamental Operations on Objects': `create` and `recycle`.

ghost use Rattle.std.specs.{Prelude.{◌≡◌, ◌+ℤ◌, is_some, true, option_map, negsuc, IfSome, OnOk}, FinMap.{get}};
ghost use Rattle.moo_world.specs.{Quota.{quota_name, quota_of, quota_changed, quota_returned, has_quota_left}, Rows.{world_of, IsGood}};
ghost use Rattle.moo_world.specs.{Keeps.{Keeps}, Numbers.{IsSameButSlots}};
ghost use Rattle.moo_props.specs.{Names.{name_of}, Quotas.{HasRoom}};

use crate::finding::find_property_named;
use crate::state::put_state;
use crate::value::value_of;
use moo_rows::{PropId, Rows, SlotState};
use moo_value::{ObjNo, Value};
use std::alloc::AllocError;

/// The integer that o reads as its quota, with the number of the property; `None` if o has no quota, as `quota_of` says.
fn quota_here<R: Rows>(rows: &R, o: ObjNo) -> Option<(PropId, i64)>
    // The rows are good: sound rows of a well formed world, and petitions as they may be beside it.
    requires { IsGood (R.held rows.now).maps }
    // The integer is the quota of o in the world; there is no answer if o has none.
    ensures quota { option_map (λ p. p.1) result ≡ quota_of (world_of (R.held rows.now).maps) o }
    // o has a slot of the property.
    ensures has { IfSome result (λ p. is_some (get (R.held rows.now).maps.slots (o, p.0)) ≡ true) }
    // The name of the property is `ownership_quota`, ASCII case aside.
    ensures named { IfSome result (λ p. name_of (R.held rows.now).maps p.0 ≡ quota_name) }
{
    let id = match find_property_named(rows, o, b"ownership_quota") {
        None => return None,
        Some(id) => id,
    };
    match value_of(rows, o, id) {
        Value::Int(quota) => Some((id, *quota)),
        _ => None,
    }
}

/// The quota of o: the integer that it reads for `ownership_quota`. `None` if o has no such property, if its value isn't an integer, or if
/// o isn't an object.
pub fn quota_of<R: Rows>(rows: &R, o: ObjNo) -> Option<i64>
    // The rows are good: sound rows of a well formed world, and petitions as they may be beside it.
    requires { IsGood (R.held rows.now).maps }
    ensures { result ≡ quota_of (world_of (R.held rows.now).maps) o }
{
    match quota_here(rows, o) {
        None => None,
        Some((_, quota)) => Some(quota),
    }
}

/// The state of a slot whose value is the sum of a quota and `by`, an integer of 64 bits.
fn set_to(quota: i64, by: i64) -> SlotState
    requires { HasRoom (Some quota) by }
    ensures { result ≡ SlotState.Set (Value.Int (quota +ℤ by)) }
{
    SlotState::Set(Value::Int(quota + by))
}

/// Adds `by` to the quota of o; nothing happens if o has none. The sum is set on o itself, and the owner and the bits of its slot stay. The
/// only error is a lack of memory.
pub fn change_quota<R: Rows>(rows: &mut R, o: ObjNo, by: i64) -> Result<(), AllocError>
    // The rows are good: sound rows of a well formed world, and petitions as they may be beside it.
    requires good { IsGood (R.held rows.old).maps }
    // If o has a quota, its sum with `by` is an integer of 64 bits.
    requires room { HasRoom (quota_of (world_of (R.held rows.old).maps) o) by }
    // The world has `by` added to the quota of o, if o has one.
    ensures world { OnOk result (world_of (R.held rows.new).maps ≡ quota_changed (world_of (R.held rows.old).maps) o by) }
    // The rows are those of a well formed world; what stays keeps its number; petitions, count of batches and what the rows are over stay.
    ensures kept { OnOk result (Keeps (R.held rows.old) (R.held rows.new)) }
    // Only slots change.
    ensures rest { OnOk result (IsSameButSlots (R.held rows.old).maps (R.held rows.new).maps) }
{
    let (id, quota) = match quota_here(rows, o) {
        None => return Ok(()),
        Some(here) => here,
    };
    put_state(rows, o, id, set_to(quota, by))?;
    Ok(())
}

/// Takes one from the quota of o, if it has one. The only error is a lack of memory.
pub fn take_quota<R: Rows>(rows: &mut R, o: ObjNo) -> Result<(), AllocError>
    // The rows are good: sound rows of a well formed world, and petitions as they may be beside it.
    requires good { IsGood (R.held rows.old).maps }
    // o has no quota, or one above 0.
    requires left { has_quota_left (world_of (R.held rows.old).maps) o ≡ true }
    // The world has one taken from the quota of o, if o has one.
    ensures world { OnOk result (world_of (R.held rows.new).maps ≡ quota_changed (world_of (R.held rows.old).maps) o (negsuc 0)) }
    // The rows are those of a well formed world; what stays keeps its number; petitions, count of batches and what the rows are over stay.
    ensures kept { OnOk result (Keeps (R.held rows.old) (R.held rows.new)) }
    // Only slots change.
    ensures rest { OnOk result (IsSameButSlots (R.held rows.old).maps (R.held rows.new).maps) }
{
    change_quota(rows, o, -1)
}

/// Gives one back to the quota of o, if it has one. A quota at the greatest integer, 9,223,372,036,854,775,807, stays. The only error is
/// a lack of memory.
pub fn return_quota<R: Rows>(rows: &mut R, o: ObjNo) -> Result<(), AllocError>
    // The rows are good: sound rows of a well formed world, and petitions as they may be beside it.
    requires { IsGood (R.held rows.old).maps }
    // The world has one given back to the quota of o, if o has one below the greatest integer.
    ensures world { OnOk result (world_of (R.held rows.new).maps ≡ quota_returned (world_of (R.held rows.old).maps) o) }
    // The rows are those of a well formed world; what stays keeps its number; petitions, count of batches and what the rows are over stay.
    ensures kept { OnOk result (Keeps (R.held rows.old) (R.held rows.new)) }
    // Only slots change.
    ensures rest { OnOk result (IsSameButSlots (R.held rows.old).maps (R.held rows.new).maps) }
{
    match quota_of(rows, o) {
        Some(quota) if quota < i64::MAX => change_quota(rows, o, 1),
        _ => Ok(()),
    }
}
