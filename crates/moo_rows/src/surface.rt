//! The program doesn't come this way. It walks over the slots and the verbs of one object, and over the rows of a kind by its type.
//! `test_rows` asks for the walk over all slots, and nobody for the walk over all verbs.

ghost use Rattle.std.specs.Prelude.{◌≡◌};
ghost use Rattle.std.specs.FinMap as map;
ghost use Rattle.moo_rows.specs.Walk.{slots_left, verbs_left};

use crate::row::{SlotRow, VerbRow};
use crate::rows::Rows;
use crate::walk::{Walk, each_row};

/// The slots with their rows, in the order of their keys. Takes no memory.
pub fn each_slot<R: Rows>(rows: &R) -> Walk<'_, R, SlotRow>
    // What the walk is still to give is all slots.
    ensures { slots_left result.last (R.held result.rows.now).maps ≡ map.entries (R.held rows.now).maps.slots }
{
    each_row(rows)
}

/// The verbs with their rows, in the order of their keys. Takes no memory.
pub fn each_verb<R: Rows>(rows: &R) -> Walk<'_, R, VerbRow>
    // What the walk is still to give is all verbs.
    ensures { verbs_left result.last (R.held result.rows.now).maps ≡ map.entries (R.held rows.now).maps.verbs }
{
    each_row(rows)
}
