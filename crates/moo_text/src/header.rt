//! The header of a batch.

ghost use Rattle.std.specs.{Prelude.{◌≡◌, ◌≢◌, ◌≤◌, ◌-◌, true, false, Some, None, IfOk, IfErr, MatchOption}, Option.{option_map}};
ghost use Rattle.moo_value.specs.Literal.{is_digit};
ghost use Rattle.moo_text.specs.{Line.{words_of_line}, LineFaults.{Says}, declared.line_fault.LineFault.TheVariants.{OutOfMemory}};
ghost use Rattle.moo_text.specs.LineReading.{behind_word, begins_with_byte, object_value, object_of, place_number, last_place, at_of};
ghost use Rattle.moo_text.specs.LineReading.{header_of};

use crate::line::{is_within_line, next_word};
use crate::line_fault::LineFault;
use crate::literal::read_front;
use moo_value::{ObjNo, Value};
use std::alloc::{AllocError, Global};

/// The header of a batch: the programmer whose batch it is, and after how many accepted batches it is due, if the header says so.
#[derive(Clone, Copy)]
pub struct Header {
    pub programmer: ObjNo,
    pub at: Option<u64>,
}

/// The bytes after a word, if it is the first word; else `None`.
#[tactic(auto, unfolding(moo_world::specs::Objects::same_text))]
fn after_the_word<'a>(word: &[u8], bytes: &'a [u8]) -> Option<&'a [u8]>
    ensures { option_map (λ rest. words_of_line rest.now) result ≡ behind_word word.now (words_of_line bytes.now) }
{
    let (first, rest) = next_word(bytes)?;
    (first == word).then_some(rest)
}

/// Whether the first of the bytes is `first`.
fn begins_with_byte(first: u8, bytes: &[u8]) -> bool
    ensures { result ≡ begins_with_byte first bytes.now }
{
    bytes.first() == Some(&first)
}

/// The object that a value is; `None` for a value of another type.
fn object_value(value: &Value) -> Option<ObjNo>
    ensures { result ≡ object_value value.now }
{
    match value {
        Value::Obj(object) => Some(*object),
        _ => None,
    }
}

/// The object that a word spells, as `#3`; `None` for any other word. AllocError if memory runs out.
pub fn object_of(alloc: Global, word: &[u8]) -> Result<Option<ObjNo>, AllocError>
    ensures { IfOk result (λ object. object ≡ object_of word.now) }
{
    if !begins_with_byte(b'#', word) {
        return Ok(None);
    }
    match read_front(alloc, word) {
        Ok((value, [])) => Ok(object_value(&value)),
        Err(LineFault::OutOfMemory) => Err(AllocError),
        _ => Ok(None),
    }
}

/// The value of a digit, 0 to 9; `None` for another byte.
pub fn digit_value(byte: u8) -> Option<u64>
    ensures { MatchOption result (is_digit byte ≡ false) (λ value. (is_digit byte ≡ true) × (value ≡ byte - 48) × (value ≤ 9)) }
{
    byte.is_ascii_digit().then(|| u64::from(byte - b'0'))
}

/// The number that 1 to 19 digits spell; `None` for other bytes, and above 9223372036854775807.
fn place_number(digits: &[u8]) -> Option<u64>
    ensures { result ≡ place_number digits.now }
{
    if digits.is_empty() || 19 < digits.len() {
        return None;
    }
    let mut place: u64 = 0;
    for digit in digits {
        place = 10 * place + digit_value(*digit)?;
    }
    (place <= 9223372036854775807).then_some(place)
}

/// The number that the one word left spells; `None` if it spells none, or if there is no word or more than one.
fn last_place(bytes: &[u8]) -> Option<u64>
    ensures { result ≡ last_place (words_of_line bytes.now) }
{
    let (digits, rest) = next_word(bytes)?;
    match next_word(rest) {
        Some(_) => None,
        None => place_number(digits),
    }
}

/// After how many accepted batches a batch is due, from the words after the programmer: none (`None`), or `at` and a number. NoAt or
/// NoPlace if the words are others.
fn at_of(bytes: &[u8]) -> Result<Option<u64>, LineFault<'_>>
    ensures ok { IfOk result (λ at. at_of (words_of_line bytes.now) ≡ Some at) }
    ensures err { IfErr result (λ _. at_of (words_of_line bytes.now) ≡ None) }
    // The fault is true of the bytes that it points at.
    ensures says { IfErr result Says }
{
    let Some((word, _)) = next_word(bytes) else {
        return Ok(None);
    };
    let rest = after_the_word(b"at", bytes).ok_or(LineFault::NoAt(word))?;
    last_place(rest).map(Some).ok_or(LineFault::NoPlace)
}

/// The header that a line of at most 262,144 bytes is: `batch as #N`, or `batch as #N at M`. The error is why it isn't one: the first fault
/// from left to right; or OutOfMemory.
pub fn read_header(alloc: Global, line: &[u8]) -> Result<Header, LineFault<'_>>
    // The line spells this header.
    ensures ok { IfOk result (λ header. header_of line.now ≡ Some header) }
    // There is a fault, but for out of memory, only if the line isn't a header.
    ensures err { IfErr result (λ fault. fault ≢ OutOfMemory → header_of line.now ≡ None) }
    // The fault is true of the bytes that it points at.
    ensures says { IfErr result Says }
{
    if !is_within_line(line) {
        return Err(LineFault::Long);
    }
    let rest = after_the_word(b"batch", line).ok_or(LineFault::NoBatch)?;
    let rest = after_the_word(b"as", rest).ok_or(LineFault::NoAs)?;
    let (word, rest) = next_word(rest).ok_or(LineFault::NoProgrammer)?;
    let programmer = object_of(alloc, word)?.ok_or(LineFault::NoObject(word))?;
    let at = at_of(rest)?;
    Ok(Header { programmer, at })
}
