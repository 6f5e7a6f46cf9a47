//! What an object takes in.

ghost use Rattle.std.specs.{Prelude.{◌≡◌, option_map}, List.{list_any}};
ghost use Rattle.moo_world.specs.{Objects.{is_among}, World.{IsTree, chain}, Rights.{accept_along, accepts}};
ghost use Rattle.moo_calls_shared.specs.Outcomes.{world_in};

use moo_rows::{ObjList, Rows, ordered};
use moo_tree::{chain_keys, is_nothing, is_under};
use moo_value::ObjNo;
use std::alloc::Global;

/// Whether the list has the thing or an ancestor of it. The thing's ancestors are gathered once, and each entry of the list is looked up
/// among them: (m + n) log m steps for n entries and m ancestors. If there is no memory for that, each entry is climbed for.
fn lists_one_above<R: Rows>(alloc: Global, rows: &R, list: &[ObjNo], thing: ObjNo) -> bool
    // Parents and locations are objects or `#-1`, without loops, and each object's number was given.
    requires { IsTree (world_in (R.held rows.now)) }
    ensures { result ≡ list_any (λ a. is_among a (chain (world_in (R.held rows.now)) thing)) list.now }
{
    match chain_keys(alloc, rows, thing) {
        Ok(above) => list.iter().any(|a| ordered::get(&above, *a).is_some()),
        Err(_) => list.iter().any(|a| is_under(rows, thing, *a)),
    }
}

/// The accept list that counts for the destination: that of the nearest object that holds one, from the destination up its
/// ancestors. An empty list counts too. `None` if neither the destination nor an ancestor holds a list.
fn list_that_counts<R: Rows>(rows: &R, to: ObjNo) -> Option<&ObjList>
    // Parents and locations are objects or `#-1`, without loops, and each object's number was given.
    requires { IsTree (world_in (R.held rows.now)) }
    ensures { let w = world_in (R.held rows.now) in option_map (λ list. list.now) result ≡ accept_along w (chain w to) }
{
    let mut at = to;
    while let Some(row) = rows.object(at) {
        if let Some(list) = &row.accept {
            return Some(list);
        }
        at = row.parent;
    }
    None
}

/// Whether the destination takes the thing in. `#-1` takes everything in. An object takes in each thing that is on the accept list that
/// counts for it, or that has an ancestor on the list. Without a list it takes nothing in.
///
/// A stored list in place of the verb `accept` of the LambdaMOO Programmer's Manual, 'Object Movement'.
pub fn accepts<R: Rows>(alloc: Global, rows: &R, to: ObjNo, thing: ObjNo) -> bool
    // Parents and locations are objects or `#-1`, without loops, and each object's number was given.
    requires { IsTree (world_in (R.held rows.now)) }
    ensures { result ≡ accepts (world_in (R.held rows.now)) to thing }
{
    if is_nothing(to) {
        return true;
    }
    match list_that_counts(rows, to) {
        Some(list) => lists_one_above(alloc, rows, list.items(), thing),
        None => false,
    }
}
