//! Lists of objects, ascending.

ghost use Rattle.std.specs.Prelude.{◌≡◌, ◌++◌, map, IfOk, OnOk};
ghost use Rattle.moo_rows.specs.Links.{linked_left};
ghost use Rattle.moo_world.specs.{ObjectLists.{children_of, contents_of, players_of}, Objects.{nothing}, Rows.{world_of}, World.{IsTree}};

use crate::numbers::nothing;
use moo_rows::{Link, Rows};
use moo_value::ObjNo;
use std::alloc::{AllocError, Global};

/// Appends to a list the objects past `#-1` that have the link, ascending. After an `Err`, a lack of memory, some of them may be listed.
pub(crate) fn list_linked<R: Rows>(
    rows: &R,
    link: Link,
    list: &mut Vec<ObjNo>,
) -> Result<(), AllocError>
    ensures { OnOk result (list.new.items ≡ list.old.items ++ map (λ e. e.0) (linked_left link nothing (R.held rows.now).maps)) }
{
    rows.list_linked(link, nothing(), list)
}

/// The objects past `#-1` that have the link, ascending. The only error is a lack of memory.
fn collect_linked<R: Rows>(alloc: Global, rows: &R, link: Link) -> Result<Vec<ObjNo>, AllocError>
    ensures { IfOk result (λ v. v.items ≡ map (λ e. e.0) (linked_left link nothing (R.held rows.now).maps)) }
{
    let mut found = Vec::new(alloc);
    list_linked(rows, link, &mut found)?;
    Ok(found)
}

/// The objects whose parent is x, ascending; the roots for `#-1`. The only error is a lack of memory.
/// LambdaMOO Programmer's Manual, 'Fundamental Operations on Objects': `children`.
pub fn children<R: Rows>(alloc: Global, rows: &R, x: ObjNo) -> Result<Vec<ObjNo>, AllocError>
    // Parents and locations are objects or `#-1`, without loops, and each object has a number that was given.
    requires { IsTree (world_of (R.held rows.now).maps) }
    ensures { IfOk result (λ v. v.items ≡ children_of (world_of (R.held rows.now).maps) x) }
{
    collect_linked(alloc, rows, Link::ChildOf(x))
}

/// The objects whose location is x, ascending; those that are nowhere for `#-1`. The only error is a lack of memory.
/// LambdaMOO Programmer's Manual, 'Properties on Objects'.
pub fn contents<R: Rows>(alloc: Global, rows: &R, x: ObjNo) -> Result<Vec<ObjNo>, AllocError>
    // Parents and locations are objects or `#-1`, without loops, and each object has a number that was given.
    requires { IsTree (world_of (R.held rows.now).maps) }
    ensures { IfOk result (λ v. v.items ≡ contents_of (world_of (R.held rows.now).maps) x) }
{
    collect_linked(alloc, rows, Link::Within(x))
}

/// The objects with the player flag, ascending. The only error is a lack of memory.
/// LambdaMOO Programmer's Manual, 'Operations on Player Objects': `players`.
pub fn players<R: Rows>(alloc: Global, rows: &R) -> Result<Vec<ObjNo>, AllocError>
    // Parents and locations are objects or `#-1`, without loops, and each object has a number that was given.
    requires { IsTree (world_of (R.held rows.now).maps) }
    ensures { IfOk result (λ v. v.items ≡ players_of (world_of (R.held rows.now).maps)) }
{
    collect_linked(alloc, rows, Link::Player)
}
