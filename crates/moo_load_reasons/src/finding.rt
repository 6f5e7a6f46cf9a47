//! Finding lines of a text by what they say. A line that can't be read is never found.

use moo_value::{LiteralFault, Value, read_whole_literal};
use std::alloc::{AllocError, Global};

/// A line by its number, from 1, with the values of its list.
#[derive(Drop)]
pub(crate) struct Found {
    pub(crate) number: u64,
    pub(crate) values: Vec<Value>,
}

/// The word that a line begins with, up to the first space.
pub(crate) fn word_of(line: &[u8]) -> &[u8] {
    match line.iter().position(|byte| *byte == b' ') {
        Some(end) => line.get(..end).unwrap_or(line),
        None => line,
    }
}

/// Whether a line begins with the word.
pub(crate) fn has_word(line: &[u8], word: &[u8]) -> bool {
    word_of(line) == word
}

/// The bytes of a line after its word and the space that follows it.
pub(crate) fn literal_of(line: &[u8]) -> &[u8] {
    let start = word_of(line).len().saturating_add(1);
    line.get(start..).unwrap_or(&[])
}

/// The values of the list of a line; no values if the line has no list. AllocError: memory ran out.
pub(crate) fn values_in(alloc: Global, line: &[u8]) -> Result<Vec<Value>, AllocError> {
    match read_whole_literal(alloc, literal_of(line)) {
        Ok(Value::List(list)) => Ok(list.into_vec()),
        Err(LiteralFault::OutOfMemory) => Err(AllocError),
        _ => Ok(Vec::new(alloc)),
    }
}

/// Whether a list of values begins with the values of another.
pub(crate) fn begin_with(values: &[Value], front: &[Value]) -> bool {
    front.len() <= values.len()
        && values
            .iter()
            .zip(front.iter())
            .all(|(value, other)| value.same(other))
}

/// The first line whose word is `word` and whose list begins with the values `front`; `None` if there is no such line. AllocError: memory
/// ran out.
pub(crate) fn line_with(
    alloc: Global,
    text: &[u8],
    word: &[u8],
    front: &[Value],
) -> Result<Option<Found>, AllocError> {
    let mut number: u64 = 0;
    for line in text.split(|byte| *byte == b'\n') {
        number = number.saturating_add(1);
        if has_word(line, word) {
            let values = values_in(alloc, line)?;
            if begin_with(&values, front) {
                return Ok(Some(Found { number, values }));
            }
        }
    }
    Ok(None)
}

/// The line of a count, from 1, among the lines whose word is `word`; `None` if there are fewer. AllocError: memory ran out.
pub(crate) fn counted_line(
    alloc: Global,
    text: &[u8],
    word: &[u8],
    count: i64,
) -> Result<Option<Found>, AllocError> {
    let mut number: u64 = 0;
    let mut met: i64 = 0;
    for line in text.split(|byte| *byte == b'\n') {
        number = number.saturating_add(1);
        if has_word(line, word) {
            met = met.saturating_add(1);
            if met == count {
                let values = values_in(alloc, line)?;
                return Ok(Some(Found { number, values }));
            }
        }
    }
    Ok(None)
}

/// The line of a number, from 1; no bytes if the text has no such line.
pub(crate) fn line_numbered(text: &[u8], number: u64) -> &[u8] {
    let mut at: u64 = 0;
    for line in text.split(|byte| *byte == b'\n') {
        at = at.saturating_add(1);
        if at == number {
            return line;
        }
    }
    &[]
}
