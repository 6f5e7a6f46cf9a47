//! Bytes and answers, written whole.

ghost use Rattle.std.specs.{Prelude.{◌≡◌, ◌≢◌, ◌⊎◌, ℕ, take, IfErr, OnOk, OnErr}, Io.KnownBytes.{Appends}};
ghost use Rattle.moo_text.specs.Replies.{answer_text};

use crate::fault::{TextFault, WriteFault};
use crate::reply::{Answer, print_answer};
use std::alloc::Global;
use std::io::Write;

/// Writes all of the bytes. An error of the writer, or a count of 0, is a fault; the first of the bytes may be written then.
pub fn put_all<W: Write>(writer: &mut W, bytes: &[u8]) -> Result<(), WriteFault>
    // All of the bytes are written after what the writer had, and nothing else.
    ensures ok { OnOk result (Appends (W.contents writer.old) (W.contents writer.new) bytes.now) }
    // At a fault the first bytes are written, 0 or more of them.
    ensures err { OnErr result ((count : ℕ) × Appends (W.contents writer.old) (W.contents writer.new) (take count bytes.now)) }
{
    let mut at = 0;
    while at < bytes.len() {
        match writer.write(&bytes[at..]) {
            Ok(0) | Err(_) => return Err(WriteFault),
            Ok(count) => at += count,
        }
    }
    Ok(())
}

/// Writes the lines of an answer whole. Write if the writer fails or takes no bytes: the beginning of the lines may be written then.
/// OutOfMemory if memory runs out: nothing is written then.
pub fn put_answer<W: Write>(alloc: Global, writer: &mut W, answer: &Answer) -> Result<(), TextFault>
    // All lines of the answer are written after what the writer had, and nothing else.
    ensures ok { OnOk result (Appends (W.contents writer.old) (W.contents writer.new) (answer_text answer.now)) }
    // At the fault Write the first bytes of the lines are written, 0 or more of them, and at another fault none.
    ensures err { IfErr result (λ fault. (count : ℕ)
        × Appends (W.contents writer.old) (W.contents writer.new) (take count (answer_text answer.now))
        × (fault ≢ TextFault.Write → count ≡ 0)) }
    // The fault is Write or OutOfMemory.
    ensures fault { IfErr result (λ fault. (fault ≡ TextFault.Write) ⊎ (fault ≡ TextFault.OutOfMemory)) }
{
    let mut text = Vec::new(alloc);
    if print_answer(alloc, answer, &mut text).is_err() {
        return Err(TextFault::OutOfMemory);
    }
    match put_all(writer, &text) {
        Ok(()) => Ok(()),
        Err(_) => Err(TextFault::Write),
    }
}
