//! Chains of parents.

ghost use Rattle.std.specs.{Prelude.{◌≡◌, IfOk, is_some}, FinMap.{get}};
ghost use Rattle.moo_value.specs.declared.value.ObjNo.{ObjNo};
ghost use Rattle.moo_rows.specs.{Maps.{object_cmp}, Ordered.{contents}};
ghost use Rattle.moo_world.specs.{Objects.{is_among}, Rows.{world_of}, World.{IsTree, chain}};

use moo_rows::{Rows, go_on, ordered};
use moo_value::ObjNo;
use std::alloc::{AllocError, Global};
use std::collections::BTreeMap;

/// x and its ancestors, the root last; an empty list if x isn't an object. The only error is a lack of memory, or of ticks (`go_on`).
pub fn chain<R: Rows>(alloc: Global, rows: &R, x: ObjNo) -> Result<Vec<ObjNo>, AllocError>
    // Parents and locations are objects or `#-1`, without loops, and each object has a number that was given.
    requires { IsTree (world_of (R.held rows.now).maps) }
    ensures { IfOk result (λ v. v.items ≡ chain (world_of (R.held rows.now).maps) x) }
{
    let mut found = Vec::new(alloc);
    let mut at = x;
    while let Some(row) = rows.object(at) {
        go_on(rows)?;
        found.push(at)?;
        at = row.parent;
    }
    Ok(found)
}

/// x and its ancestors as the keys of a map, in which objects are looked up; an empty map if x isn't an object. The chain is climbed
/// once: m log m steps for a chain of m objects. The only error is a lack of memory. As `is_under`, and not as `chain`, it goes on when
/// the ticks are spent.
pub fn chain_keys<R: Rows>(
    alloc: Global,
    rows: &R,
    x: ObjNo,
) -> Result<BTreeMap<ObjNo, ()>, AllocError>
    // Parents and locations are objects or `#-1`, without loops, and each object has a number that was given.
    requires { IsTree (world_of (R.held rows.now).maps) }
    // The keys are the objects of the chain of x.
    ensures { IfOk result (λ found. (y : ObjNo) →
        is_some (get (contents object_cmp found) y) ≡ is_among y (chain (world_of (R.held rows.now).maps) x)) }
{
    let mut keys = BTreeMap::new(alloc);
    let mut at = x;
    while let Some(row) = rows.object(at) {
        ordered::put(&mut keys, at, ())?;
        at = row.parent;
    }
    Ok(keys)
}

/// Whether x is an object that is `ancestor` or has it as an ancestor. Takes no memory. It climbs from x to the root at most. To ask of
/// many ancestors of one x, take its `chain_keys`; to ask of many objects under one ancestor, take `owners_under`.
pub fn is_under<R: Rows>(rows: &R, x: ObjNo, ancestor: ObjNo) -> bool
    // Parents and locations are objects or `#-1`, without loops, and each object has a number that was given.
    requires { IsTree (world_of (R.held rows.now).maps) }
    ensures { result ≡ is_among ancestor (chain (world_of (R.held rows.now).maps) x) }
{
    let mut at = x;
    while let Some(row) = rows.object(at) {
        if at == ancestor {
            return true;
        }
        at = row.parent;
    }
    false
}
