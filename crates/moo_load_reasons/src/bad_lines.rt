//! Telling what is wrong with a line that isn't a word and a list.

use crate::finding::{literal_of, word_of};
use crate::said::Said;
use moo_load::DumpReason;
use moo_value::{LiteralFault, read_literal};
use std::alloc::{AllocError, Global};

/// The bytes of a line from the place on where reading its list stops: where a value can't be read, or after a value that isn't followed by
/// `, `.
fn unread_bytes(alloc: Global, line: &[u8]) -> &[u8] {
    let literal = literal_of(line);
    let mut rest = literal.strip_prefix(b"{").unwrap_or(literal);
    for _ in 0..line.len() {
        let Ok((_, used)) = read_literal(alloc, rest) else {
            return rest;
        };
        rest = rest.get(used..).unwrap_or(&[]);
        match rest.strip_prefix(b", ") {
            Some(next) => rest = next,
            None => return rest,
        }
    }
    rest
}

/// Says what is wrong with a line that isn't a word and a list, by its number in the text and the reason for which loading refused it. The
/// only error is a lack of memory.
pub(crate) fn put_broken(
    said: &mut Said,
    line: &[u8],
    number: u64,
    why: DumpReason,
) -> Result<(), AllocError> {
    match why {
        DumpReason::NoEnd if line.is_empty() => {
            return said.put("the text ends before the line 'end'");
        }
        DumpReason::NoEnd => return said.put("the text ends inside the line"),
        _ => {}
    }
    if line.is_empty() {
        return said.put("a blank line");
    }
    if line.ends_with(b"\r") {
        return said.put("the line ends in a carriage return");
    }
    if line.starts_with(b"\xEF\xBB\xBF") {
        return said.put("a byte order mark is before it");
    }
    match why {
        DumpReason::NoHeading => said.put(heading_sentence(number)),
        DumpReason::NoRow => {
            said.put_shown(word_of(line))?;
            said.put(" begins no line: object, property, slot, verb, petition or end")
        }
        DumpReason::NoList => said.put("a list in braces is wanted after the word"),
        DumpReason::NoValue(fault) => put_value_fault(said, line, fault),
        _ => {
            let rest = unread_bytes(said.alloc, line);
            said.put(separator_sentence(rest))
        }
    }
}

/// How a line of a dump's heading is written, by its number: 1, or else the second line.
fn heading_sentence(number: u64) -> &'static str {
    if number == 1 {
        "the first line is 'seq ' and how many batches were accepted, as 'seq 0'"
    } else {
        "the second line is 'top ' and the greatest number of an object, as 'top #3'"
    }
}

/// What is wrong after a value: the list isn't closed, something follows it, or `, ` is missing.
fn separator_sentence(rest: &[u8]) -> &'static str {
    match rest {
        [] => "the list isn't closed by a '}'",
        [b'}', ..] => "something follows the '}' that closes the list",
        _ => "a value is followed by ', '",
    }
}

/// Whether bytes end inside a text, whose closing quote is missing.
fn is_open_text(bytes: &[u8]) -> bool {
    let mut is_open = false;
    let mut is_escaped = false;
    for byte in bytes {
        if is_escaped {
            is_escaped = false;
        } else if *byte == b'"' {
            is_open = !is_open;
        } else {
            is_escaped = is_open && *byte == b'\\';
        }
    }
    is_open
}

/// Says why a value of a line's list can't be read. The only error is a lack of memory.
fn put_value_fault(said: &mut Said, line: &[u8], fault: LiteralFault) -> Result<(), AllocError> {
    let rest = unread_bytes(said.alloc, line);
    match fault {
        LiteralFault::OutOfRange => {
            said.put("a number out of range: an integer has 64 bits, an object 32")
        }
        LiteralFault::BadByte => {
            said.put("a byte in a text that is neither a tab nor printing ASCII")
        }
        LiteralFault::TooDeep => said.put("lists are over 32 deep"),
        LiteralFault::TooLong => said.put("a text of over 65535 bytes"),
        LiteralFault::OutOfMemory => Err(AllocError),
        LiteralFault::NotALiteral if is_open_text(rest) => {
            said.put("a text without its closing quote")
        }
        LiteralFault::NotALiteral => put_no_value(said, rest),
    }
}

/// Says what is found where a value is wanted: the end of the line, a bad list, or a word that isn't a value. AllocError: memory ran out.
fn put_no_value(said: &mut Said, rest: &[u8]) -> Result<(), AllocError> {
    match rest {
        [] => said.put("the line ends where a value is wanted"),
        [b'{', ..] => said.put(
            "a list with something in it that isn't a value, or without its '}'",
        ),
        _ => {
            let word = rest
                .split(|byte| matches!(*byte, b' ' | b',' | b'}'))
                .next()
                .unwrap_or(&[]);
            said.put_shown(word)?;
            said.put(" isn't a value: 12, #4, \"a text\", E_PERM or {1, #2}")
        }
    }
}
