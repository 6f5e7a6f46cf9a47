//! Writing one field of an object.

ghost use Rattle.std.specs.Prelude.{◌≡◌, true, OnOk};
ghost use Rattle.moo_world.specs.{Fields.{field_changed, is_allowed_change}, Keeps.{Keeps}, Rows.{IsGood}, World.{is_object}};
ghost use Rattle.moo_calls_shared.specs.Outcomes.{world_in};

use moo_rows::{Row, Rows};
use moo_value::ObjNo;
use moo_world::Change;
use std::alloc::{AllocError, Global};

/// Changes one field of an object, and nothing else. The only error is a lack of memory.
///
/// A new location has to be `#-1`, or an object that isn't x and isn't in x; an accept list has 1,000 entries at most. Names,
/// the numbers of owners and the numbers on an accept list keep the limits of their types.
pub fn change_row<R: Rows>(
    rows: &mut R,
    alloc: Global,
    x: ObjNo,
    change: Change,
) -> Result<(), AllocError>
    // The rows are good: sound rows of a well formed world, and petitions as they may be beside it.
    requires good { IsGood (R.held rows.old).maps }
    // x is an object.
    requires there { is_object (world_in (R.held rows.old)) x ≡ true }
    // The new content of the field is within its limits, and a new location makes no loop.
    requires allowed { is_allowed_change (world_in (R.held rows.old)) x change ≡ true }
    // The world is the old one but for that field of x.
    ensures world { OnOk result (world_in (R.held rows.new) ≡ field_changed (world_in (R.held rows.old)) x change) }
    // The rows are good ones, what stays keeps its number, and the petitions and the count of batches are as they were.
    ensures kept { OnOk result (Keeps (R.held rows.old) (R.held rows.new)) }
{
    let row = match rows.object(x) {
        Some(row) => row.copy(alloc)?,
        None => unreachable!(),
    };
    rows.put_object(x, change.apply_to(row))
}
