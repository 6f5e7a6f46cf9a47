//! Skipping the objects of a chain that define nothing.

ghost use Rattle.std.specs.{Prelude.{◌≡◌, ◌⊎◌, OnOk, IfOk}, List.{AllByRecursion}};
ghost use Rattle.moo_dump.specs.Lines.{ListsDefinitions, LeadsUp, SkipUp};
ghost use Rattle.moo_rows.specs.Maps.{Maps};
ghost use Rattle.moo_world.specs.{Rows.{world_of}, World.{IsTree}};

use crate::definitions::{Definitions, ids_listed};
use moo_rows::{Rows, each_object};
use moo_value::ObjNo;
use std::alloc::{AllocError, Global};
use std::collections::BTreeMap;

/// For objects that define nothing, an object further up the chain, below which no object on the way defines anything. Not every such
/// object has an entry.
pub(crate) type Skips = BTreeMap<ObjNo, ObjNo>;

/// The object at which the way up a chain goes on from x: x itself, or the object that the entry of x leads to.
pub(crate) fn skip_up_from(skips: &Skips, x: ObjNo) -> ObjNo
    ensures { (t : Maps) → SkipUp t skips.now → (result ≡ x) ⊎ LeadsUp t x result }
{
    match skips.get(&x) {
        Some(above) => *above,
        None => x,
    }
}

/// The objects from x up its chain that define nothing and have no entry yet, and where the way up goes on after them: the next object that
/// defines something, the object that an entry leads to, or `#-1`. The only error is a lack of memory.
fn way_up<R: Rows>(
    alloc: Global,
    rows: &R,
    definitions: &Definitions,
    skips: &Skips,
    x: ObjNo,
) -> Result<(Vec<ObjNo>, ObjNo), AllocError>
    // Parents and locations are objects or `#-1`, without loops, and each object's number was given.
    requires tree { IsTree (world_of (R.held rows.now).maps) }
    // The definitions are those of the rows.
    requires listed { ListsDefinitions (R.held rows.now).maps definitions.now }
    // Each entry that there is leads up.
    requires up { SkipUp (R.held rows.now).maps skips.now }
    // From each of the objects an entry to the object that is answered leads up.
    ensures { IfOk result (λ way. AllByRecursion (λ y. LeadsUp (R.held rows.now).maps y way.1) way.0.items) }
{
    let mut way = Vec::new(alloc);
    let mut at = x;
    while let Some(row) = rows.object(at) {
        if 0 < ids_listed(definitions, at).len() {
            return Ok((way, at));
        }
        if let Some(above) = skips.get(&at) {
            return Ok((way, *above));
        }
        way.push(at)?;
        at = row.parent;
    }
    Ok((way, at))
}

/// Adds an entry for each object of a way, which leads to the object `above`. The only error is a lack of memory.
fn add_way(skips: &mut Skips, way: &[ObjNo], above: ObjNo) -> Result<(), AllocError>
    // If each entry led up before, and one from each object of the way to `above` does, each entry leads up afterwards.
    ensures { OnOk result ((t : Maps) → SkipUp t skips.old → AllByRecursion (λ y. LeadsUp t y above) way.now → SkipUp t skips.new) }
{
    for y in way {
        skips.insert(*y, above)?;
    }
    Ok(())
}

/// An entry for each object that has children and defines nothing. The only error is a lack of memory.
///
/// Each object is passed once, and once more from each of its children.
pub(crate) fn all_skips<R: Rows>(
    alloc: Global,
    rows: &R,
    definitions: &Definitions,
) -> Result<Skips, AllocError>
    // Parents and locations are objects or `#-1`, without loops, and each object's number was given.
    requires tree { IsTree (world_of (R.held rows.now).maps) }
    // The definitions are those of the rows.
    requires listed { ListsDefinitions (R.held rows.now).maps definitions.now }
    // Each entry leads up the chain of its object, past objects that define nothing.
    ensures { IfOk result (SkipUp (R.held rows.now).maps) }
{
    let mut skips = BTreeMap::new(alloc);
    for (_, row) in each_object(rows) {
        let (way, above) = way_up(alloc, rows, definitions, &skips, row.parent)?;
        add_way(&mut skips, &way, above)?;
    }
    Ok(skips)
}
