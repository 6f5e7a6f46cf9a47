//! Object numbers.

ghost use Rattle.std.specs.Prelude.{◌≡◌};
ghost use Rattle.moo_world.specs.{Objects.{nothing, same_object}, Rows.{world_of}, World.{is_object}};

use moo_rows::Rows;
use moo_value::ObjNo;

/// The number that stands for no object, `#-1`.
pub fn nothing() -> ObjNo
    ensures { result ≡ nothing }
{
    ObjNo(-1)
}

/// Whether the number is `#-1`.
pub fn is_nothing(x: ObjNo) -> bool
    ensures { result ≡ same_object nothing x }
{
    x == nothing()
}

/// Whether an object has the number. Takes no memory. LambdaMOO Programmer's Manual, 'Fundamental Operations on Objects': `valid`.
pub fn valid<R: Rows>(rows: &R, x: ObjNo) -> bool
    ensures { result ≡ is_object (world_of (R.held rows.now).maps) x }
{
    rows.object(x).is_some()
}
