//! The program doesn't come this way. The project's requirements name these calls. The program reads a call by `call_of`, and
//! prints a reply within an answer, by `print_answer`.

ghost use Rattle.std.specs.Prelude.{◌≡◌, ◌++◌, IfOk, IfErr, OnOk, OnErr};
ghost use Rattle.moo_world.specs.declared.call.Call.{Call};
ghost use Rattle.moo_text.specs.{Grammar.{SpellsCall}, Replies.{reply_text}, declared.surface.CallFault.TheVariants.{Malformed}};

use crate::call_text::call_of;
use crate::reply::{Reply, put_reply};
use moo_world::Call;
use std::alloc::{AllocError, Global};

/// Why a line is read as no call.
#[derive(Clone, Copy)]
pub enum CallFault {
    /// The line spells no call.
    Malformed,
    /// Memory ran out.
    OutOfMemory,
}

/// The call that a line of at most 262,144 bytes spells, `name(value, ...)`: the name in any case, spaces and tabs between the tokens.
/// Malformed for any other line; OutOfMemory if memory runs out.
pub fn read_call(alloc: Global, line: &[u8]) -> Result<Call, CallFault>
    // The line spells the call.
    ensures ok { IfOk result (λ call. SpellsCall call line.now) }
    // At Malformed the line spells no call.
    ensures err { IfErr result (λ fault. fault ≡ Malformed → (call : Call) → ¬ (SpellsCall call line.now)) }
{
    match call_of(alloc, line) {
        Ok(Some(call)) => Ok(call),
        Ok(None) => Err(CallFault::Malformed),
        Err(_) => Err(CallFault::OutOfMemory),
    }
}

/// Appends the lines of a reply. The only error is a lack of memory, and it leaves the bytes as they were.
pub fn print_reply(alloc: Global, reply: &Reply, out: &mut Vec<u8>) -> Result<(), AllocError>
    // Just the lines of the reply are appended.
    ensures ok { OnOk result (out.new.items ≡ out.old.items ++ reply_text reply.now) }
    // After an error the bytes are as they were.
    ensures err { OnErr result (out.new.items ≡ out.old.items) }
{
    let start = out.len();
    let result = put_reply(alloc, reply, out);
    if result.is_err() {
        out.truncate(start);
    }
    result
}
