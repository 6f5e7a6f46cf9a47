//! Saying why a line isn't a header or a call.

use crate::built_ins::is_built_in;
use crate::names::nearest_name;
use crate::said::{LONG_LINE, Said};
use crate::values::{put_missing, put_value_reason};
use moo_text::{LineFault, call_of, call_or_fault, is_end_line, read_header};
use moo_value::{skip_blanks, split_word};
use std::alloc::AllocError;

/// How the header of a batch is written.
const FORM: &[u8] = b"a batch begins with a line `batch as #N`, in small letters";

/// What is wrong with a line whose bytes aren't plain text: a byte order mark, UTF-16 or carriage returns. `None` for other lines.
fn foreign_reason(line: &[u8]) -> Option<&'static [u8]> {
    if line.starts_with(&[0xef, 0xbb, 0xbf]) {
        return Some(b"the text begins with a byte order mark: save it as plain ASCII, without one");
    }
    if line.starts_with(&[0xff, 0xfe]) || line.starts_with(&[0xfe, 0xff]) || line.contains(&0) {
        return Some(b"the text is in UTF-16: save it as plain ASCII");
    }
    if line.contains(&b'\r') {
        return Some(
            b"the line has carriage returns inside: end lines with line feeds, and not as on an old Mac",
        );
    }
    None
}

/// Says what is wrong with a header that doesn't begin with `batch`. The only error is a lack of memory.
fn put_no_batch(said: &mut Said, line: &[u8]) -> Result<(), AllocError> {
    if is_end_line(line) {
        return said.put(b"`end` outside a batch");
    }
    if call_of(said.alloc, line)?.is_some() {
        said.put(b"a call outside a batch: ")?;
    }
    said.put(FORM)
}

/// Says that a word names no call, and which name it may have meant, or for a function of LambdaMOO which page explains it. The only error
/// is a lack of memory.
fn put_name_reason(said: &mut Said, word: &[u8]) -> Result<(), AllocError> {
    said.put_of(word, b" names no call")?;
    if is_built_in(word) {
        return said.put(b" (see LAMBDAMOO)");
    }
    if let Some(name) = nearest_name(word) {
        said.put(b" (did you mean ")?;
        said.put(name.spelling())?;
        said.put(b"?)")?;
    }
    Ok(())
}

/// Says what is wrong where the name of a call is wanted. The only error is a lack of memory.
fn put_no_name(said: &mut Said, rest: &[u8]) -> Result<(), AllocError> {
    let (word, _) = split_word(rest);
    if word.is_empty() {
        return said.put_of(
            rest,
            b" isn't a call: each line of a batch is one, and there are no comments",
        );
    }
    if word == b"end".as_slice() {
        return said.put(b"`end` is alone on its line, and no comment follows it");
    }
    if word.eq_ignore_ascii_case(b"end") {
        return said.put(b"`end` is in small letters");
    }
    if word.eq_ignore_ascii_case(b"batch") {
        return said.put(b"`batch` inside a batch: the line `end` before it is missing");
    }
    put_name_reason(said, word)
}

/// Says what is wrong with a line, by the fault with which reading it stopped. The only error is a lack of memory.
fn put_fault(said: &mut Said, line: &[u8], fault: LineFault<'_>) -> Result<(), AllocError> {
    match fault {
        LineFault::Long => said.put(LONG_LINE),
        LineFault::NoBatch => put_no_batch(said, line),
        LineFault::NoAs => {
            said.put(b"`batch` is followed by `as` and the programmer, as in `batch as #3`")
        }
        LineFault::NoProgrammer => {
            said.put(b"`batch as` is followed by the programmer, as in `batch as #3`")
        }
        LineFault::NoObject(word) => said.put_of(
            word,
            b" isn't an object: the programmer is written as in `batch as #3`",
        ),
        LineFault::NoAt(word) => said.put_of(
            word,
            b" after the programmer: only `at` and a number may come there",
        ),
        LineFault::NoPlace => said.put(
            b"`at` is followed by one number, at most 9223372036854775807, and nothing more",
        ),
        LineFault::NoName(rest) => put_no_name(said, rest),
        LineFault::NoBracket(name) => said.put_of(
            name,
            b" is followed by its values in brackets, as in get(#2, \"name\")",
        ),
        LineFault::NoValue(rest, fault) => put_value_reason(said, rest, fault),
        LineFault::NoMark(mark, rest) => put_missing(said, mark, rest),
        LineFault::NoEnd(rest) => said.put_of(
            skip_blanks(rest),
            b" after the call: a line holds one call, and no comment",
        ),
        LineFault::OutOfMemory => Err(AllocError),
    }
}

/// Says why a line isn't a header of a batch. AllocError: memory ran out.
pub(crate) fn put_header_reason(said: &mut Said, line: &[u8]) -> Result<(), AllocError> {
    if let Some(reason) = foreign_reason(line) {
        return said.put(reason);
    }
    match read_header(said.alloc, line) {
        Ok(_) => said.put(FORM),
        Err(fault) => put_fault(said, line, fault),
    }
}

/// Says why a line isn't a call of a batch, or that it is a call too many. AllocError: memory ran out.
pub(crate) fn put_call_reason(said: &mut Said, line: &[u8]) -> Result<(), AllocError> {
    match call_or_fault(said.alloc, line) {
        Ok(_) => said.put(b"a batch has at most 1000 calls"),
        Err(fault) => put_fault(said, line, fault),
    }
}
