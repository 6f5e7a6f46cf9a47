//! Reading a call from a line.

ghost use Rattle.std.specs.Prelude.{◌≡◌, ◌≢◌, length, IfOk, IfErr, None, Some};
ghost use Rattle.moo_text.specs.{LineFaults.{Says}, declared.line_fault.LineFault.TheVariants.{OutOfMemory}};
ghost use Rattle.moo_text.specs.LineReading.{arguments_of, values_at, call_of};
ghost use Rattle.moo_world.specs.Names.{call_name_of};

use crate::line::{is_all_blank, is_within_line};
use crate::line_fault::LineFault;
use crate::literal::read_front;
use moo_value::{after_mark, skip_blanks, split_word};
use moo_world::{Args, Call, CallName};
use std::alloc::{AllocError, Global};

/// The values before a closing mark, which ends the line: one at least, with commas between. The error is the first fault, or OutOfMemory.
pub fn values_at(alloc: Global, mark: u8, bytes: &[u8]) -> Result<Args, LineFault<'_>>
    // The bytes spell the values, with commas between them, up to the mark that ends the line.
    ensures ok { IfOk result (λ args. values_at mark (length bytes.now) bytes.now ≡ Some args) }
    // There is a fault, but for out of memory, only if the bytes don't spell values so.
    ensures err { IfErr result (λ fault. fault ≢ OutOfMemory → values_at mark (length bytes.now) bytes.now ≡ None) }
    // The fault is true of the bytes that it points at.
    ensures says { IfErr result Says }
{
    let mut values = Vec::new(alloc);
    let mut rest = bytes;
    loop {
        let (value, after) = read_front(alloc, rest)?;
        values.push(value).map_err(AllocError::from)?;
        if let Some(end) = after_mark(mark, after) {
            if is_all_blank(end) {
                return Ok(Args::from_vec(values));
            }
            return Err(LineFault::NoEnd(end));
        }
        rest = after_mark(b',', after).ok_or(LineFault::NoMark(mark, after))?;
    }
}

/// The arguments of a call, from past its `(` to the `)` that ends the line. The error is the first fault from the left, or OutOfMemory.
fn arguments_of(alloc: Global, bytes: &[u8]) -> Result<Args, LineFault<'_>>
    ensures ok { IfOk result (λ args. arguments_of bytes.now ≡ Some args) }
    // There is a fault, but for out of memory, only if the bytes aren't arguments.
    ensures err { IfErr result (λ fault. fault ≢ OutOfMemory → arguments_of bytes.now ≡ None) }
    // The fault is true of the bytes that it points at.
    ensures says { IfErr result Says }
{
    match after_mark(b')', bytes) {
        Some(end) if is_all_blank(end) => Ok(Args::from_vec(Vec::new(alloc))),
        Some(end) => Err(LineFault::NoEnd(end)),
        None => values_at(alloc, b')', bytes),
    }
}

/// The call that a word names, in any case; `None` if it names none.
fn call_name_of(word: &[u8]) -> Option<CallName>
    ensures { result ≡ call_name_of word.now }
{
    CallName::read(word)
}

/// The call that a line of at most 262,144 bytes spells, `name(value, ...)`. The error is the first fault from the left, or OutOfMemory.
pub fn call_or_fault(alloc: Global, line: &[u8]) -> Result<Call, LineFault<'_>>
    // The line spells this call.
    ensures ok { IfOk result (λ call. call_of line.now ≡ Some call) }
    // There is a fault, but for out of memory, only if the line spells no call.
    ensures err { IfErr result (λ fault. fault ≢ OutOfMemory → call_of line.now ≡ None) }
    // The fault is true of the bytes that it points at.
    ensures says { IfErr result Says }
{
    if !is_within_line(line) {
        return Err(LineFault::Long);
    }
    let front = skip_blanks(line);
    let (word, rest) = split_word(front);
    let name = call_name_of(word).ok_or(LineFault::NoName(front))?;
    let rest = after_mark(b'(', rest).ok_or(LineFault::NoBracket(word))?;
    let args = arguments_of(alloc, rest)?;
    Ok(Call { name, args })
}

/// The call that a line of at most 262,144 bytes spells. `None` for any other line: `call_or_fault` says why. AllocError: memory ran out.
pub fn call_of(alloc: Global, line: &[u8]) -> Result<Option<Call>, AllocError>
    ensures { IfOk result (λ call. call ≡ call_of line.now) }
{
    match call_or_fault(alloc, line) {
        Ok(call) => Ok(Some(call)),
        Err(LineFault::OutOfMemory) => Err(AllocError),
        Err(_) => Ok(None),
    }
}
