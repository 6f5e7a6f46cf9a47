//! Saying why bytes aren't a value.

use crate::said::{LINE_ENDS, Said};
use moo_text::{LineFault, next_word, values_at};
use moo_value::{LiteralFault, MAX_NESTING, after_mark, skip_blanks};
use std::alloc::AllocError;

/// What is said of bytes that leave a text open at their end, or the list that they begin; `None` for others. What is between quotes
/// doesn't count for the list.
fn unclosed_reason(bytes: &[u8]) -> Option<&'static [u8]> {
    let mut depth: usize = 0;
    let mut is_list = bytes.starts_with(b"{");
    let mut is_text = false;
    let mut is_escaped = false;
    for byte in bytes {
        if is_escaped {
            is_escaped = false;
        } else if *byte == b'"' {
            is_text = !is_text;
        } else if is_text {
            is_escaped = *byte == b'\\';
        } else if *byte == b'{' {
            depth = depth.saturating_add(1);
        } else if *byte == b'}' {
            depth = depth.saturating_sub(1);
        }
        is_list = is_list && 0 < depth;
    }
    match (is_text, is_list) {
        (true, _) => Some(b"a text without its closing quote"),
        (_, true) => Some(b"a list without its closing `}`"),
        _ => None,
    }
}

/// Says that a comma or the closing mark is missing before some bytes. The only error is a lack of memory.
pub(crate) fn put_missing(said: &mut Said, mark: u8, rest: &[u8]) -> Result<(), AllocError> {
    said.put(b"a comma or `")?;
    said.put(&[mark])?;
    said.put(b"` is missing before ")?;
    said.put_of(skip_blanks(rest), b"")
}

/// Says what is wrong where a value is wanted: in the innermost list that begins there. The only error is a lack of memory.
fn put_no_value(said: &mut Said, bytes: &[u8]) -> Result<(), AllocError> {
    if let Some(reason) = unclosed_reason(bytes) {
        return said.put(reason);
    }
    let mut item = bytes;
    for _level in 0..MAX_NESTING {
        let Some(inside) = after_mark(b'{', item) else {
            break;
        };
        match values_at(said.alloc, b'}', inside) {
            Err(LineFault::NoValue(rest, _)) => item = rest,
            Err(LineFault::NoMark(mark, rest)) => return put_missing(said, mark, rest),
            Err(LineFault::OutOfMemory) => return Err(AllocError),
            _ => break,
        }
    }
    match next_word(item) {
        Some((word, _)) => said.put_of(
            word,
            b" isn't a value: 12, #4, \"a text\", E_PERM or {1, #2}",
        ),
        None => said.put(LINE_ENDS),
    }
}

/// Says which is the first byte that no text may hold. The only error is a lack of memory.
fn put_bad_byte(said: &mut Said, bytes: &[u8]) -> Result<(), AllocError> {
    let bad = bytes.iter().find(|byte| !matches!(**byte, 9 | 32..=126));
    let Some(byte) = bad else {
        return put_no_value(said, bytes);
    };
    said.put(b"byte ")?;
    said.put_count(u64::from(*byte))?;
    said.put(b" in a text: only tabs, spaces and printing ASCII")
}

/// Says why the bytes begin with no value. The only error is a lack of memory.
pub(crate) fn put_value_reason(
    said: &mut Said,
    bytes: &[u8],
    fault: LiteralFault,
) -> Result<(), AllocError> {
    match fault {
        LiteralFault::NotALiteral => put_no_value(said, skip_blanks(bytes)),
        LiteralFault::OutOfRange => {
            said.put(b"a number out of range: an integer has 64 bits, an object 32")
        }
        LiteralFault::BadByte => put_bad_byte(said, bytes),
        LiteralFault::TooDeep => said.put(b"lists are over 32 deep"),
        LiteralFault::TooLong => said.put(b"a text of over 65535 bytes"),
        LiteralFault::OutOfMemory => Err(AllocError),
    }
}
