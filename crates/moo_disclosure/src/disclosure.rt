//! What a refusal tells besides its reason and what the call was given.

ghost use Rattle.std.specs.Prelude.{◌≡◌, true, false, [], None, IfOk};
ghost use Rattle.moo_world.specs.Rows.{IsGood, world_of};
ghost use Rattle.moo_disclosure.specs.Disclosed.{clash_name, names_meant};

use crate::clash::clash_name;
use crate::meant::names_meant;
use moo_rows::Rows;
use moo_value::{MooStr, ObjNo, Value};
use moo_world::{CallName, Reason};
use std::alloc::{AllocError, Global};

/// What a refusal tells besides its reason and what the call was given: names that its programmer may list.
#[derive(Drop)]
pub struct Disclosure {
    /// The names among which the call may have meant one.
    pub meant: Vec<MooStr>,
    /// The name of the property that keeps an object from its new parent.
    pub clash: Option<MooStr>,
}

/// What the refusal of a call tells in the world of the rows. The refusal of a call that a granted petition holds (`is_held`) tells no
/// name: the rows may be half changed. The only error is a lack of memory.
pub fn disclosure_of<R: Rows>(
    alloc: Global,
    rows: &R,
    programmer: ObjNo,
    call: CallName,
    args: &[Value],
    reason: Reason,
    is_held: bool,
) -> Result<Disclosure, AllocError>
    // The rows are good ones, unless a granted petition holds the call: then they may be half changed.
    requires { is_held ≡ false → IsGood (R.held rows.now).maps }
    // If the call is one of the batch itself and fails for the want of a property, `meant` has the first 200 names that the programmer may
    // list on the objects where the call looks for it; none if the object has a property of the name, or if the call fails for another
    // reason.
    ensures meant { IfOk result (λ told. is_held ≡ false →
        told.meant.items ≡ names_meant (world_of (R.held rows.now).maps) programmer call args.now reason) }
    // If the call is one of the batch itself and fails as `NameShared`, `clash` is the first of the definer's first 200 names that the new
    // parent has, if the programmer may read the definer; else no name.
    ensures clash { IfOk result (λ told. is_held ≡ false →
        told.clash ≡ clash_name (world_of (R.held rows.now).maps) programmer args.now reason) }
    // Of a call that a granted petition holds no name is told.
    ensures held { IfOk result (λ told. is_held ≡ true → (told.meant.items ≡ []) × (told.clash ≡ None)) }
{
    if is_held {
        return Ok(Disclosure {
            meant: Vec::new(alloc),
            clash: None,
        });
    }
    let clash = clash_name(alloc, rows, programmer, args, reason)?;
    let meant = names_meant(alloc, rows, programmer, call, args, reason)?;
    Ok(Disclosure { meant, clash })
}
