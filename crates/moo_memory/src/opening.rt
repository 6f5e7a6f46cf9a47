//! The rows that a new world begins with.

ghost use Rattle.std.specs.Prelude.{◌≡◌, IfOk, OnOk};
ghost use Rattle.moo_rows.specs.{Maps.{no_maps, with_object}, Opening.{opening_maps, root_class, first_room, wizard}};
ghost use Rattle.moo_rows.specs.declared.row.ObjRow.{ObjRow};

use crate::flat::Flat;
use moo_rows::{ObjList, ObjRow, Rows};
use moo_value::ObjNo;
use std::alloc::{AllocError, Global};

const ROOT: ObjNo = ObjNo(1);

const WIZARD: ObjNo = ObjNo(3);

/// The row of the root class, #1, which is fertile. The only error is a lack of memory.
fn root_class(alloc: Global) -> Result<ObjRow, AllocError>
    ensures { IfOk result (λ row. row ≡ root_class) }
{
    let mut row = ObjRow::plain(alloc, b"Root Class", WIZARD, ObjNo(-1))?;
    row.f = true;
    Ok(row)
}

/// The row of the first room, #2, which takes in each descendant of #1. The only error is a lack of memory.
fn first_room(alloc: Global) -> Result<ObjRow, AllocError>
    ensures { IfOk result (λ row. row ≡ first_room) }
{
    let mut row = ObjRow::plain(alloc, b"The First Room", WIZARD, ROOT)?;
    row.accept = Some(ObjList::from_vec(vec![in alloc; ROOT]?));
    Ok(row)
}

/// The row of the wizard, #3, who is in #2. The only error is a lack of memory.
fn wizard(alloc: Global) -> Result<ObjRow, AllocError>
    ensures { IfOk result (λ row. row ≡ wizard) }
{
    let mut row = ObjRow::plain(alloc, b"Wizard", WIZARD, ROOT)?;
    row.location = ObjNo(2);
    row.player = true;
    row.programmer = true;
    row.wizard = true;
    Ok(row)
}

/// Puts the row of an object, if there was memory to make it. The only error is a lack of memory, for the row or for putting it.
fn put_row<R: Rows>(
    rows: &mut R,
    key: ObjNo,
    row: Result<ObjRow, AllocError>,
) -> Result<(), AllocError>
    // A row that was made is put.
    ensures { OnOk result ((wanted : ObjRow) → IfOk row (λ row. row ≡ wanted) →
        R.held rows.new ≡ with_object (R.held rows.old) key wanted) }
{
    rows.put_object(key, row?)
}

/// Puts the rows that a new world begins with if there are none: the system object, the root class, the first room and the
/// wizard. The only error is a lack of memory, and some of them may be there then.
pub fn put_opening<R: Rows>(rows: &mut R, alloc: Global) -> Result<(), AllocError>
    // If there were no rows, and the head was that of no rows, the rows are those that a new world begins with.
    ensures maps { OnOk result ((R.held rows.old).maps ≡ no_maps → (R.held rows.new).maps ≡ opening_maps) }
    // The base stays: what the rows are over, how many may be put or removed, and whether it was said that no more calls are to be made.
    ensures base { OnOk result ((R.held rows.new).base ≡ (R.held rows.old).base) }
{
    let mut head = rows.head();
    head.top = WIZARD.0;
    rows.set_head(head);
    let system_object = ObjRow::plain(alloc, b"System Object", WIZARD, ROOT);
    put_row(rows, ObjNo(0), system_object)?;
    put_row(rows, ROOT, root_class(alloc))?;
    put_row(rows, ObjNo(2), first_room(alloc))?;
    put_row(rows, WIZARD, wizard(alloc))?;
    Ok(())
}

/// The rows that a new world begins with. The only error is a lack of memory.
pub fn opening_world(alloc: Global) -> Result<Flat, AllocError>
    ensures { IfOk result (λ rows. rows.maps ≡ opening_maps) }
{
    let mut rows = Flat::new(alloc);
    put_opening(&mut rows, alloc)?;
    Ok(rows)
}
