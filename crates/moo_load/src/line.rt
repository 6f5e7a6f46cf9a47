//! Reading the lines of a dump: a word and a literal list.

ghost use Rattle.std.specs.Prelude.{◌≡◌, ◌≢◌, ◌≤◌, ◌<◌, ◌+◌, ◌∷◌, ◌++◌, ℕ, List, length, drop, IfOk, IfErr, IsOkAnd, IsTrue, ◌↔◌, codes};
ghost use Rattle.moo_value.specs.declared.value.Value.{Value};
ghost use Rattle.moo_load.specs.{Loaded.{SaysOfText}, Printed.{ArePrinted, IsOneLine, word_text}, declared.line.Word.{Word}};

use crate::fault::{LineFault, LineResult, LoadFault};
use crate::place::line_from;
use crate::reason::DumpReason;
use moo_value::{Value, read_literal};
use std::alloc::{AllocError, Global};

/// The word that the line of a row begins with, which says what row it is.
#[derive(Clone, Copy, PartialEq, Eq)]
pub(crate) enum Word {
    Object,
    Property,
    Slot,
    Verb,
    Petition,
}

/// The word that a line begins with, and the bytes after the space that follows it. NoRow if it begins with no such word and a space.
pub(crate) fn split_keyword(line: &[u8]) -> LineResult<(Word, &[u8])>
    ensures ok { IfOk result (λ r. line.now ≡ word_text r.0 ++ 32 ∷ r.1.now) }
    // There is a fault only if the line doesn't begin with one of the five words and a space.
    ensures err { IfErr result (λ _. (word : Word) (rest : List ℕ) → line.now ≢ word_text word ++ 32 ∷ rest) }
{
    if let Ok(literal) = after_prefix(b"object ", line, DumpReason::NoRow) {
        return Ok((Word::Object, literal));
    }
    if let Ok(literal) = after_prefix(b"property ", line, DumpReason::NoRow) {
        return Ok((Word::Property, literal));
    }
    if let Ok(literal) = after_prefix(b"slot ", line, DumpReason::NoRow) {
        return Ok((Word::Slot, literal));
    }
    if let Ok(literal) = after_prefix(b"verb ", line, DumpReason::NoRow) {
        return Ok((Word::Verb, literal));
    }
    if let Ok(literal) = after_prefix(b"petition ", line, DumpReason::NoRow) {
        return Ok((Word::Petition, literal));
    }
    Err(LineFault::Unreadable(DumpReason::NoRow))
}

/// The bytes after a prefix. Without the prefix the error is Unreadable, for the reason `why`.
pub(crate) fn after_prefix<'a>(
    prefix: &[u8],
    bytes: &'a [u8],
    why: DumpReason,
) -> LineResult<&'a [u8]>
    ensures ok { IfOk result (λ rest. bytes.now ≡ prefix.now ++ rest.now) }
    // There is a fault only if the bytes don't begin with the prefix.
    ensures err { IfErr result (λ _. (rest : List ℕ) → bytes.now ≢ prefix.now ++ rest) }
{
    match bytes.strip_prefix(prefix) {
        Some(rest) => Ok(rest),
        None => Err(LineFault::Unreadable(why)),
    }
}

/// The values of a literal list that has one at least. Each may nest 32 deep: the list itself isn't counted. NoList, NoSeparator, or the
/// fault of a value, for other bytes; OutOfMemory if memory runs out.
pub(crate) fn values_of(alloc: Global, literal: &[u8]) -> LineResult<Vec<Value>>
    // If the bytes are a list as it is printed, of values within their limits, the answer is its values.
    ensures ok { IfOk result (λ r. (v : Value) (vs : List Value) → ArePrinted (v ∷ vs) literal.now → r.items ≡ v ∷ vs) }
    // There is a fault, but for out of memory, only if the bytes aren't such a list.
    ensures err { IfErr result (λ fault. fault ≢ LineFault.OutOfMemory → (v : Value) (vs : List Value) →
        ¬ (ArePrinted (v ∷ vs) literal.now)) }
{
    let mut values = Vec::new(alloc);
    let mut rest = after_prefix(b"{", literal, DumpReason::NoList)?;
    loop {
        let (value, used) = read_literal(alloc, rest)?;
        values.push(value).map_err(AllocError::from)?;
        rest = &rest[used..];
        if rest == b"}".as_slice() {
            return Ok(values);
        }
        rest = after_prefix(b", ", rest, DumpReason::NoSeparator)?;
    }
}

/// Whether a line is `end`, the last line of a dump.
pub(crate) fn is_end(line: &[u8]) -> bool
    ensures { IsTrue result ↔ (line.now ≡ codes "end") }
{
    line == b"end".as_slice()
}

/// The line that begins at a place of the text, without its end. NotADump if no line end follows.
pub(crate) fn next_line(text: &[u8], at: usize) -> Result<&[u8], LoadFault>
    // The text has the place.
    requires { at ≤ length text.now }
    // The line and its end are in the text.
    ensures ok { IfOk result (λ line. at + length line.now < length text.now) }
    // If bytes without a line end begin at the place, and a line end follows, the bytes are the line.
    ensures found { (line rest : List ℕ) → IsOneLine line → drop at text.now ≡ line ++ 10 ∷ rest → IsOkAnd result (λ l. l.now ≡ line) }
    // The text has a line of the number that a fault names.
    ensures err { IfErr result (SaysOfText text.now) }
{
    match line_from(text, at) {
        Some(line) => Ok(line),
        None => Err(LineFault::Unreadable(DumpReason::NoEnd).within(text, at)),
    }
}
