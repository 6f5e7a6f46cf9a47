//! The program doesn't come this way. The project's requirements name `common` and `subtree`. The program asks for what is under
//! an object by `owners_under`, and reads what a change of parent brings off the slots.

ghost use Rattle.std.specs.Prelude.{◌≡◌, ◌-◌, IfOk, drop, length};
ghost use Rattle.moo_world.specs.{Manual.{common}, ObjectLists.{subtree_of}, Rows.{world_of}, World.{IsTree, chain}};

use crate::numbers::nothing;
use crate::under::owner_map_under;
use moo_rows::Rows;
use moo_value::ObjNo;
use std::alloc::{AllocError, Global};

/// The object that is as many steps above x as there are objects in the chain of other, or the number that ends the chain of x if that
/// chain is shorter. Takes no memory.
fn up_along<R: Rows>(rows: &R, x: ObjNo, other: ObjNo) -> ObjNo
    // Parents and locations are objects or `#-1`, without loops, and each object has a number that was given.
    requires { IsTree (world_of (R.held rows.now).maps) }
    // The chain of the answer is that of x without its first objects, as many as the chain of other has.
    ensures { chain (world_of (R.held rows.now).maps) result
        ≡ drop (length (chain (world_of (R.held rows.now).maps) other)) (chain (world_of (R.held rows.now).maps) x) }
{
    let mut at = x;
    let mut left = other;
    while let Some(step) = rows.object(left) {
        at = match rows.object(at) {
            None => return at,
            Some(row) => row.parent,
        };
        left = step.parent;
    }
    at
}

/// Climbs from x to the depth of other: x itself if its chain is no longer than that of other, and else its ancestor whose chain is as
/// long. Takes no memory.
fn climb_to_depth_of<R: Rows>(rows: &R, x: ObjNo, other: ObjNo) -> ObjNo
    // Parents and locations are objects or `#-1`, without loops, and each object has a number that was given.
    requires { IsTree (world_of (R.held rows.now).maps) }
    // The chain of the answer is that of x without its first objects, as many as it has more than the chain of other.
    ensures { chain (world_of (R.held rows.now).maps) result
        ≡ drop (length (chain (world_of (R.held rows.now).maps) x) - length (chain (world_of (R.held rows.now).maps) other))
        (chain (world_of (R.held rows.now).maps) x) }
{
    let beyond = up_along(rows, x, other);
    up_along(rows, x, beyond)
}

/// The first of new and its ancestors that is a proper ancestor of x, or `#-1` if there is no such object. It takes a few times as many
/// steps as the two objects stand deep. LambdaMOO Programmer's Manual, 'Fundamental Operations on Objects': `chparent`.
pub fn common<R: Rows>(rows: &R, x: ObjNo, new: ObjNo) -> ObjNo
    // Parents and locations are objects or `#-1`, without loops, and each object has a number that was given.
    requires { IsTree (world_of (R.held rows.now).maps) }
    ensures { result ≡ common (world_of (R.held rows.now).maps) x new }
{
    let parent = match rows.object(x) {
        None => return nothing(),
        Some(row) => row.parent,
    };
    let mut one = climb_to_depth_of(rows, parent, new);
    let mut other = climb_to_depth_of(rows, new, parent);
    while let Some(row) = rows.object(other) {
        if other == one {
            return other;
        }
        one = match rows.object(one) {
            None => unreachable!(),
            Some(above) => above.parent,
        };
        other = row.parent;
    }
    nothing()
}

/// x and its descendants, ascending; an empty list if x isn't an object. The only error is a lack of memory, or of ticks (`go_on`).
///
/// It looks only at what is under x: m log n steps for m objects there among n of the world, however deep they stand.
pub fn subtree<R: Rows>(alloc: Global, rows: &R, x: ObjNo) -> Result<Vec<ObjNo>, AllocError>
    // Parents and locations are objects or `#-1`, without loops, and each object has a number that was given.
    requires { IsTree (world_of (R.held rows.now).maps) }
    ensures { IfOk result (λ v. v.items ≡ subtree_of (world_of (R.held rows.now).maps) x) }
{
    owner_map_under(alloc, rows, x)?.into_keys().collect(alloc)
}
