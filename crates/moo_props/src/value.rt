//! What an object reads for a property.

ghost use Rattle.std.specs.{Prelude.{◌≡◌, is_some, true}, FinMap.{get}};
ghost use Rattle.moo_world.specs.{World.{read_of}, Rows.{world_of, IsGood}};
ghost use Rattle.moo_props.specs.Names.{name_of};

use moo_rows::{PropId, Rows, SlotState};
use moo_value::{ObjNo, Value};

/// The value that x reads for a property that it has: its own, or if that is clear what its parent reads. Takes no memory.
pub fn value_of<R: Rows>(rows: &R, x: ObjNo, id: PropId) -> &Value
    // The rows are good: sound rows of a well formed world, and petitions as they may be beside it.
    requires good { IsGood (R.held rows.now).maps }
    // x has a slot of the property.
    requires has { is_some (get (R.held rows.now).maps.slots (x, id)) ≡ true }
    // The answer is what x reads in the world for the name of the property.
    ensures { read_of (world_of (R.held rows.now).maps) x (name_of (R.held rows.now).maps id) ≡ Some result.now }
{
    let mut at = x;
    while let Some(slot) = rows.slot((at, id)) {
        if let SlotState::Set(value) = &slot.state {
            return value;
        }
        at = match rows.object(at) {
            None => unreachable!(),
            Some(row) => row.parent,
        };
    }
    unreachable!()
}
