//! What is under an object.

ghost use Rattle.std.specs.{Prelude.{◌≡◌, ◌++◌, true, Some, IfOk, OnOk}, FinMap.{get, insert}};
ghost use Rattle.moo_rows.specs.{declared.row.ObjRow.{ObjRow}, Maps.{object_cmp}, Ordered.{contents}};
ghost use Rattle.moo_world.specs.{ObjectLists.{children_of}, Rows.{world_of}, World.{IsTree, is_object}};
ghost use Rattle.moo_tree.specs.Under.{IsOwnerMap, owners_under};

use crate::lists::list_linked;
use crate::numbers::valid;
use moo_rows::{Link, Rows, go_on, ordered};
use moo_value::ObjNo;
use std::alloc::{AllocError, Global};
use std::collections::BTreeMap;

/// Puts an object y with its owner among those that are found, and appends its children to those that are to be visited after it. An `Err`
/// is a lack of memory.
fn visit<R: Rows>(
    rows: &R,
    y: ObjNo,
    found: &mut BTreeMap<ObjNo, ObjNo>,
    below: &mut Vec<ObjNo>,
) -> Result<(), AllocError>
    // Parents and locations are objects or `#-1`, without loops, and each object has a number that was given.
    requires tree { IsTree (world_of (R.held rows.now).maps) }
    requires object { is_object (world_of (R.held rows.now).maps) y ≡ true }
    // Without an error, y is among the found objects too, with its owner.
    ensures found { OnOk result ((row : ObjRow) → get (R.held rows.now).maps.objects y ≡ Some row →
        contents object_cmp found.new ≡ insert (contents object_cmp found.old) y row.owner) }
    // The children of y are appended to the objects that are to be visited.
    ensures below { OnOk result (below.new.items ≡ below.old.items ++ children_of (world_of (R.held rows.now).maps) y) }
{
    let row = match rows.object(y) {
        None => unreachable!(),
        Some(row) => row,
    };
    ordered::put(found, y, row.owner)?;
    list_linked(rows, Link::ChildOf(y), below)
}

/// x and its descendants, each with its owner; an empty map if x isn't an object. It goes down level by level, so that the work grows with
/// what is found, and not with the world. The only error is a lack of memory, or of ticks (`go_on`).
pub(crate) fn owner_map_under<R: Rows>(
    alloc: Global,
    rows: &R,
    x: ObjNo,
) -> Result<BTreeMap<ObjNo, ObjNo>, AllocError>
    // Parents and locations are objects or `#-1`, without loops, and each object has a number that was given.
    requires { IsTree (world_of (R.held rows.now).maps) }
    // The map has x and each object under x, each with its owner, and nothing else.
    ensures { IfOk result (λ found. IsOwnerMap (R.held rows.now).maps x (contents object_cmp found)) }
{
    let mut found = BTreeMap::new(alloc);
    if !valid(rows, x) {
        return Ok(found);
    }
    let mut level = Vec::new(alloc);
    level.push(x)?;
    while !level.is_empty() {
        let mut below = Vec::new(alloc);
        for y in level.as_slice() {
            go_on(rows)?;
            visit(rows, *y, &mut found, &mut below)?;
        }
        level = below;
    }
    Ok(found)
}

/// x and its descendants, ascending, each with its owner; an empty list if x isn't an object. It costs what `subtree` does. An `Err` is a
/// lack of memory, or of ticks (`go_on`).
pub fn owners_under<R: Rows>(
    alloc: Global,
    rows: &R,
    x: ObjNo,
) -> Result<Vec<(ObjNo, ObjNo)>, AllocError>
    // Parents and locations are objects or `#-1`, without loops, and each object has a number that was given.
    requires { IsTree (world_of (R.held rows.now).maps) }
    ensures { IfOk result (λ v. v.items ≡ owners_under (R.held rows.now).maps x) }
{
    owner_map_under(alloc, rows, x)?.into_iter().collect(alloc)
}
