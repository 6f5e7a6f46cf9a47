//! What the built-in properties read as.

ghost use Rattle.std.specs.Prelude.{◌≡◌, true};
ghost use Rattle.moo_world.specs.{BuiltIns.{field_of}, Outcomes.{Done}, Rows.{IsGood}, World.{is_object}};
ghost use Rattle.moo_calls_shared.specs.Outcomes.{world_in, Answers};

use moo_calls_shared::Fault;
use moo_rows::Rows;
use moo_value::{ObjNo, Value};
use moo_world::{BuiltIn, flag, object_list};
use std::alloc::Global;

/// What a built-in property of an object reads as: the text, the object or the list of objects, and 1 or 0 for a bit.
/// The only error is a lack of memory.
/// LambdaMOO Programmer's Manual, 'Properties on Objects' in the chapter on the database.
pub fn field_of<R: Rows>(rows: &R, alloc: Global, x: ObjNo, field: BuiltIn) -> Result<Value, Fault>
    // The rows are good: sound rows of a well formed world, and petitions as they may be beside it.
    requires good { IsGood (R.held rows.now).maps }
    // x is an object.
    requires there { is_object (world_in (R.held rows.now)) x ≡ true }
    // The answer is what the definition `field_of` says; or memory ran out.
    ensures { Answers (Done (field_of (world_in (R.held rows.now)) x field) (world_in (R.held rows.now))) (R.held rows.now) result }
{
    let row = match rows.object(x) {
        None => unreachable!(),
        Some(row) => row,
    };
    match field {
        BuiltIn::Name => Ok(Value::Str(row.name.copy(alloc)?)),
        BuiltIn::Owner => Ok(Value::Obj(row.owner)),
        BuiltIn::Location => Ok(Value::Obj(row.location)),
        BuiltIn::Contents => {
            let found = moo_tree::contents(alloc, rows, x)?;
            Ok(object_list(alloc, found.as_slice())?)
        }
        BuiltIn::Programmer => Ok(flag(row.programmer)),
        BuiltIn::Wizard => Ok(flag(row.wizard)),
        BuiltIn::R => Ok(flag(row.r)),
        BuiltIn::W => Ok(flag(row.w)),
        BuiltIn::F => Ok(flag(row.f)),
    }
}
