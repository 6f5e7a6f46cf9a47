//! Reading the values of a property's line.

ghost use Rattle.std.specs.Prelude.{◌≡◌, ◌≢◌, ◌∷◌, [], true, IfOk, IfErr};
ghost use Rattle.moo_value.specs.declared.value.Value.TheVariants.{Obj, Str};
ghost use Rattle.moo_rows.specs.declared.row.PropRow.{PropRow};
ghost use Rattle.moo_world.specs.World.{is_property_name};

use crate::fault::{LineFault, LineResult};
use crate::reason::DumpReason;
use crate::value::{object_of, text_of};
use moo_rows::PropRow;
use moo_value::{MooStr, Value};
use moo_world::{BuiltIn, MAX_NAME};
use std::alloc::Global;

/// Whether a property may have the name: 1 to 255 bytes, and not built in.
fn is_property_name(name: &MooStr) -> bool
    ensures { result ≡ is_property_name name.now }
{
    let length = name.bytes().len();
    0 < length && length <= MAX_NAME && BuiltIn::of_name(name).is_none()
}

/// The definer and the name of a property, from the values of its line. The error is the first value, from left to right, that isn't as a
/// dump has it, or their count; or OutOfMemory.
pub(crate) fn read_property(alloc: Global, values: &[Value]) -> LineResult<PropRow>
    // The values are those of the property's line.
    ensures shown { IfOk result (λ row. values.now ≡ Obj row.definer ∷ Str row.name ∷ []) }
    ensures fits { IfOk result (λ row. is_property_name row.name ≡ true) }
    // There is a fault, but for out of memory, only if the values aren't those of the line of a property that may have its name.
    ensures err { IfErr result (λ fault. fault ≢ LineFault.OutOfMemory → (row : PropRow) → is_property_name row.name ≡ true
        → values.now ≢ Obj row.definer ∷ Str row.name ∷ []) }
{
    let [definer, name] = values else {
        return Err(LineFault::Unreadable(DumpReason::Count("a property has 2 values")));
    };
    let definer = object_of(definer, "definer")?;
    let name = text_of(name, "name")?;
    if !is_property_name(name) {
        return Err(LineFault::Unreadable(DumpReason::NoPropertyName));
    }
    let name = name.copy(alloc)?;
    Ok(PropRow { definer, name })
}
