//! Reading the values of an object's line.

ghost use Rattle.std.specs.Prelude.{◌≡◌, ◌≢◌, true, IfOk, IfErr};
ghost use Rattle.moo_value.specs.declared.value.ObjNo.{ObjNo};
ghost use Rattle.moo_rows.specs.declared.row.ObjRow.{ObjRow};
ghost use Rattle.moo_dump.specs.Dump.{object_values};
ghost use Rattle.moo_world.specs.World.{row_fits};

use crate::fault::{LineFault, LineResult};
use crate::reason::DumpReason;
use crate::value::{accept_of, flag_of, object_of, text_of};
use moo_rows::ObjRow;
use moo_value::{ObjNo, Value};
use std::alloc::Global;

/// The number and the row of an object, from the values of its line. The error is the first value, from left to right, that isn't as a dump
/// has it, or their count; or OutOfMemory.
pub(crate) fn read_object(alloc: Global, values: &[Value]) -> LineResult<(ObjNo, ObjRow)>
    // The values are those of the object's line.
    ensures shown { IfOk result (λ r. values.now ≡ object_values r.0 r.1) }
    // The row is within the limits of its columns.
    ensures fits { IfOk result (λ r. row_fits r.1 ≡ true) }
    // There is a fault, but for out of memory, only if the values aren't those of the line of an object within its limits.
    ensures err { IfErr result (λ fault. fault ≢ LineFault.OutOfMemory → (x : ObjNo) (row : ObjRow) → row_fits row ≡ true →
        values.now ≢ object_values x row) }
{
    let [
        number,
        name,
        owner,
        parent,
        location,
        player,
        programmer,
        wizard,
        r,
        w,
        f,
        accept,
    ] = values
    else {
        return Err(LineFault::Unreadable(DumpReason::Count("an object has 12 values")));
    };
    let number = object_of(number, "number")?;
    let row = ObjRow {
        name: text_of(name, "name")?.copy(alloc)?,
        owner: object_of(owner, "owner")?,
        parent: object_of(parent, "parent")?,
        location: object_of(location, "location")?,
        player: flag_of(player, "player")?,
        programmer: flag_of(programmer, "programmer")?,
        wizard: flag_of(wizard, "wizard")?,
        r: flag_of(r, "r")?,
        w: flag_of(w, "w")?,
        f: flag_of(f, "f")?,
        accept: accept_of(alloc, accept)?,
    };
    Ok((number, row))
}
