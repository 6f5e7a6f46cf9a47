//! What is in what.

ghost use Rattle.std.specs.Prelude.{◌≡◌};
ghost use Rattle.moo_world.specs.{Rights.{is_within}, Rows.{world_of}, World.{IsTree}};

use moo_rows::Rows;
use moo_value::ObjNo;

/// Whether x is an object that is y or is in y, at any depth. Takes no memory. LambdaMOO Programmer's Manual, 'Object Movement': `move`.
pub fn inside<R: Rows>(rows: &R, x: ObjNo, y: ObjNo) -> bool
    // Parents and locations are objects or `#-1`, without loops, and each object has a number that was given.
    requires { IsTree (world_of (R.held rows.now).maps) }
    ensures { result ≡ is_within (world_of (R.held rows.now).maps) x y }
{
    let mut at = x;
    while let Some(row) = rows.object(at) {
        if at == y {
            return true;
        }
        at = row.location;
    }
    false
}
