//! The name of a property that clashes.

ghost use Rattle.std.specs.Prelude.{◌≡◌, IfOk, option_map};
ghost use Rattle.moo_world.specs.Rows.{IsGood, world_of};
ghost use Rattle.moo_disclosure.specs.Disclosed.{clash_name, name_shared, new_parent_given};

use crate::meant::MOST_LOOKED_AT;
use moo_calls_shared::rights::may_read_object;
use moo_props::find;
use moo_rows::{PropId, Rows, each_defined};
use moo_value::{MooStr, ObjNo, Value};
use moo_world::Reason;
use std::alloc::{AllocError, Global};

/// The first name among an object's own properties of which the new parent has a property too; `None` if none of the first 200 is so.
fn name_shared<R: Rows>(rows: &R, definer: ObjNo, new: ObjNo) -> Option<&MooStr>
    // The rows are good: sound rows of a well formed world, and petitions as they may be beside it.
    requires { IsGood (R.held rows.now).maps }
    ensures { option_map (λ name. name.now) result ≡ name_shared (world_of (R.held rows.now).maps) definer new }
{
    let mut room = MOST_LOOKED_AT;
    for (_id, row) in each_defined(rows, definer, PropId(0)) {
        if room == 0 {
            return None;
        }
        if find(rows, new, &row.name).is_some() {
            return Some(&row.name);
        }
        room -= 1;
    }
    None
}

/// The new parent, the second argument of a `chparent`; `None` if that isn't an object.
fn new_parent_given(args: &[Value]) -> Option<ObjNo>
    ensures { result ≡ new_parent_given args.now }
{
    match args {
        [_, Value::Obj(new), ..] => Some(*new),
        _ => None,
    }
}

/// The name of the property that keeps an object from its new parent. `None` if the call was refused for another reason, if the programmer
/// may not list the properties of its definer, or if it isn't among the definer's first 200. The only error is a lack of memory.
pub(crate) fn clash_name<R: Rows>(
    alloc: Global,
    rows: &R,
    programmer: ObjNo,
    args: &[Value],
    reason: Reason,
) -> Result<Option<MooStr>, AllocError>
    // The rows are good: sound rows of a well formed world, and petitions as they may be beside it.
    requires { IsGood (R.held rows.now).maps }
    ensures { IfOk result (λ name. name ≡ clash_name (world_of (R.held rows.now).maps) programmer args.now reason) }
{
    let Reason::NameShared(definer) = reason else {
        return Ok(None);
    };
    if !may_read_object(rows, programmer, definer) {
        return Ok(None);
    }
    let Some(new) = new_parent_given(args) else {
        return Ok(None);
    };
    match name_shared(rows, definer, new) {
        Some(name) => Ok(Some(name.copy(alloc)?)),
        None => Ok(None),
    }
}
