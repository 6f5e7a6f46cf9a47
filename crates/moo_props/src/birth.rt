//! A new object, with the slots that it inherits.
//! LambdaMOO Programmer's Manual, 'Fundamental Operations on Objects': `create`.

ghost use Rattle.std.specs.Prelude.{◌≡◌, ◌||◌, true, Some, OnOk};
ghost use Rattle.moo_world.specs.{Creation.{created, next_object}, Objects.{Name, nothing, same_object}, Rows.{world_of, IsGood}};
ghost use Rattle.moo_world.specs.{World.{is_object, read_of}, Keeps.{Keeps}};
ghost use Rattle.moo_props.specs.Birth.{with_new_row};

use crate::slots::{origins_among, put_fresh};
use moo_rows::{ObjRow, Rows};
use moo_value::ObjNo;
use std::alloc::{AllocError, Global};

/// Puts the row of a new object x with this parent and owner, an empty name, no location, no accept list, and no flag or bit set, and
/// makes x the greatest number that was given. It has no slots yet. The only error is a lack of memory, after which the rows may be half
/// changed.
fn put_new<R: Rows>(
    alloc: Global,
    rows: &mut R,
    x: ObjNo,
    parent: ObjNo,
    owner: ObjNo,
) -> Result<(), AllocError>
    ensures { OnOk result (R.held rows.new ≡ with_new_row x parent owner (R.held rows.old)) }
{
    let row = ObjRow::plain(alloc, b"", owner, parent)?;
    let mut head = rows.head();
    head.top = x.0;
    rows.set_head(head);
    rows.put_object(x, row)?;
    Ok(())
}

/// Makes x, the object of the next number, under a parent. It inherits all properties of the parent: each of its slots is
/// clear, has the bits of the parent's slot, and as owner its own if the bit c is set, else the owner of that slot.
///
/// The only error is a lack of memory, after which the rows may be half changed.
pub fn make_object<R: Rows>(
    alloc: Global,
    rows: &mut R,
    x: ObjNo,
    parent: ObjNo,
    owner: ObjNo,
) -> Result<(), AllocError>
    // The rows are good: sound rows of a well formed world, and petitions as they may be beside it.
    requires good { IsGood (R.held rows.old).maps }
    // x has the number that a new object gets.
    requires next { next_object (world_of (R.held rows.old).maps) ≡ Some x }
    // The parent is an object or `#-1`.
    requires parent { (is_object (world_of (R.held rows.old).maps) parent || same_object nothing parent) ≡ true }
    // The world has one object more, x, with the slots that it inherits.
    ensures world { OnOk result (world_of (R.held rows.new).maps ≡ created (world_of (R.held rows.old).maps) x parent owner) }
    // The rows are those of a well formed world; what stays keeps its number; petitions, count of batches and what the rows are over stay.
    ensures kept { OnOk result (Keeps (R.held rows.old) (R.held rows.new)) }
    // Each object that was there reads what it read.
    ensures reads { OnOk result ((o : ObjNo) (n : Name) → is_object (world_of (R.held rows.old).maps) o ≡ true →
        read_of (world_of (R.held rows.new).maps) o n ≡ read_of (world_of (R.held rows.old).maps) o n) }
{
    let inherited = origins_among(alloc, rows, parent)?;
    put_new(alloc, rows, x, parent, owner)?;
    put_fresh(rows, x, owner, inherited.as_slice())?;
    Ok(())
}
