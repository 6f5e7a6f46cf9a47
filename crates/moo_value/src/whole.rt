//! Literals that are a whole text.

ghost use Rattle.std.specs.Prelude.{◌≢◌, Ok, IfErr, IfOk};
ghost use Rattle.moo_value.specs.{declared.fault.LiteralFault.TheVariants.{OutOfMemory}, declared.value.Value.{Value}};
ghost use Rattle.moo_value.specs.{Fault.{HasWholeFault}, Literal.{Spells, Fits}, Reading.{Gives}};

use crate::fault::LiteralFault;
use crate::reading::read_literal;
use crate::value::Value;
use std::alloc::Global;

/// The value that the bytes spell from the first to the last, in any of its spellings. Blanks may stand before it, and
/// nothing after it.
///
/// Errors: those of `read_literal`, and `NotALiteral` where something follows the literal in front.
pub fn read_whole_literal(alloc: Global, bytes: &[u8]) -> Result<Value, LiteralFault>
    // The bytes are a spelling of the value that is read, and the value is within the limits.
    ensures spelled { IfOk result (λ v. Spells v bytes.now × Fits v) }
    // A value within the limits is read from each of its spellings, unless memory runs out.
    ensures only { (v : Value) → Fits v → Spells v bytes.now → Gives (λ w. w) result (Ok v) }
    // An error but a lack of memory is the first fault of the text, or NotALiteral if something follows the literal in front.
    ensures fault { IfErr result (λ f. f ≢ OutOfMemory → HasWholeFault bytes.now f) }
{
    let (value, used) = read_literal(alloc, bytes)?;
    if used == bytes.len() {
        Ok(value)
    } else {
        Err(LiteralFault::NotALiteral)
    }
}
