//! Reading the literal that bytes begin with.

ghost use Rattle.std.specs.Prelude.{◌≡◌, ◌≢◌, IfOk, IfErr, Some, None, true};
ghost use Rattle.moo_world.specs.Arguments.{fits};
ghost use Rattle.moo_text.specs.{LineReading.{front_of}, LineFaults.{Says}, declared.line_fault.LineFault.TheVariants.{OutOfMemory}};

use crate::line_fault::LineFault;
use moo_value::{LiteralFault, Value, read_literal};
use std::alloc::Global;

/// The value whose literal the bytes begin with, and the bytes after it. NoValue if they begin with none; OutOfMemory if memory runs out.
pub(crate) fn read_front(alloc: Global, bytes: &[u8]) -> Result<(Value, &[u8]), LineFault<'_>>
    ensures ok { IfOk result (λ x. front_of bytes.now ≡ Some (x.0, x.1.now)) }
    // The value nests at most 32 deep, and its numbers and texts are within their limits.
    ensures fits { IfOk result (λ x. fits x.0 ≡ true) }
    // There is a fault, but for out of memory, only if the bytes begin with no literal.
    ensures err { IfErr result (λ fault. fault ≢ OutOfMemory → front_of bytes.now ≡ None) }
    // The fault is true of the bytes that it points at.
    ensures says { IfErr result Says }
{
    match read_literal(alloc, bytes) {
        Ok((value, count)) => Ok((value, &bytes[count..])),
        Err(fault) => match fault {
            LiteralFault::OutOfMemory => Err(LineFault::OutOfMemory),
            _ => Err(LineFault::NoValue(bytes, fault)),
        },
    }
}
