//! The lines of one object.

ghost use Rattle.std.specs.{Prelude.{◌≡◌, ◌++◌, OnOk, IfOk}, List.{flat_map}};
ghost use Rattle.moo_dump.specs.{Dump.{verb_line, object_lines}, Lines.{property_line_of, slot_line_of, slot_lines_over}};
ghost use Rattle.moo_dump.specs.Outlined.{IsOutline};
ghost use Rattle.moo_world.specs.{Rows.{world_of, IsSound, IsGood}, World.{IsTree, chain, directory_of}};

use crate::definitions::ids_listed;
use crate::lines::{put_object_line, put_property_line, put_slot_line, put_verb_line};
use crate::outline::Outline;
use crate::skips::skip_up_from;
use moo_rows::{PropId, Rows, VerbId, each_verb_of};
use moo_value::ObjNo;
use std::alloc::{AllocError, Global};

/// Appends the lines of the properties that x defines. The only error is a lack of memory; some of the bytes may be there then.
fn put_properties<R: Rows>(
    alloc: Global,
    rows: &R,
    x: ObjNo,
    ids: &[PropId],
    out: &mut Vec<u8>,
) -> Result<(), AllocError>
    ensures { OnOk result (out.new.items ≡ out.old.items ++ flat_map (property_line_of (R.held rows.now).maps x) ids.now) }
{
    for id in ids {
        if let Some(property) = rows.prop(*id) {
            put_property_line(alloc, x, &property.name, out)?;
        }
    }
    Ok(())
}

/// Appends the line of the slot of a property on x; nothing if x has no such slot. The only error is a lack of memory.
fn put_slot<R: Rows>(
    alloc: Global,
    rows: &R,
    x: ObjNo,
    id: PropId,
    out: &mut Vec<u8>,
) -> Result<(), AllocError>
    ensures { OnOk result (out.new.items ≡ out.old.items ++ slot_line_of (R.held rows.now).maps x id) }
{
    let Some(property) = rows.prop(id) else {
        return Ok(());
    };
    match rows.slot((x, id)) {
        Some(slot) => put_slot_line(alloc, x, property, slot, out),
        None => Ok(()),
    }
}

/// Appends the lines of the slots of some properties on x, in order. The only error is a lack of memory.
fn put_slots_of<R: Rows>(
    alloc: Global,
    rows: &R,
    x: ObjNo,
    ids: &[PropId],
    out: &mut Vec<u8>,
) -> Result<(), AllocError>
    ensures { OnOk result (out.new.items ≡ out.old.items ++ flat_map (slot_line_of (R.held rows.now).maps x) ids.now) }
{
    for id in ids {
        put_slot(alloc, rows, x, *id, out)?;
    }
    Ok(())
}

/// Appends the lines of the slots of x, by definers from x up its chain. The way up skips the objects that define nothing: they have no
/// lines here. The only error is a lack of memory.
fn put_slots<R: Rows>(
    alloc: Global,
    rows: &R,
    outline: &Outline,
    x: ObjNo,
    out: &mut Vec<u8>,
) -> Result<(), AllocError>
    // Parents and locations are objects or `#-1`, without loops, and each object's number was given.
    requires tree { IsTree (world_of (R.held rows.now).maps) }
    // The outline is that of the rows.
    requires outline { IsOutline (R.held rows.now).maps outline.now }
    // The lines are those of the slots on x of the properties that objects of its chain define, by definers in order.
    ensures { OnOk result (out.new.items
        ≡ out.old.items ++ slot_lines_over (R.held rows.now).maps x (chain (world_of (R.held rows.now).maps) x)) }
{
    let mut at = x;
    while let Some(row) = rows.object(at) {
        put_slots_of(alloc, rows, x, ids_listed(&outline.definitions, at), out)?;
        at = skip_up_from(&outline.skips, row.parent);
    }
    Ok(())
}

/// Appends the lines of the verbs of x, in the order of the directory. The only error is a lack of memory.
fn put_verbs<R: Rows>(
    alloc: Global,
    rows: &R,
    x: ObjNo,
    out: &mut Vec<u8>,
) -> Result<(), AllocError>
    // The rows are sound.
    requires { IsSound (R.held rows.now).maps }
    ensures { OnOk result (out.new.items
        ≡ out.old.items ++ flat_map (verb_line x) (directory_of (world_of (R.held rows.now).maps) x)) }
{
    for (_, row) in each_verb_of(rows, x, VerbId(0)) {
        put_verb_line(alloc, x, row, out)?;
    }
    Ok(())
}

/// The lines of an object: its row, the names that it defines, its slots by definers up its chain, its verbs. No lines if no object has
/// the number. The only error is a lack of memory.
pub(crate) fn object_lines<R: Rows>(
    alloc: Global,
    rows: &R,
    outline: &Outline,
    x: ObjNo,
) -> Result<Vec<u8>, AllocError>
    // The rows are good: sound rows of a well formed world, and petitions as they may be beside it.
    requires good { IsGood (R.held rows.now).maps }
    // The outline is that of the rows.
    requires outline { IsOutline (R.held rows.now).maps outline.now }
    ensures { IfOk result (λ text. text.items ≡ object_lines (world_of (R.held rows.now).maps) x) }
{
    let mut text = Vec::new(alloc);
    if let Some(row) = rows.object(x) {
        put_object_line(alloc, x, row, &mut text)?;
        put_properties(
            alloc,
            rows,
            x,
            ids_listed(&outline.definitions, x),
            &mut text,
        )?;
        put_slots(alloc, rows, outline, x, &mut text)?;
        put_verbs(alloc, rows, x, &mut text)?;
    }
    Ok(text)
}
