//! Telling why a row can't have a value of its line.

use crate::finding::{has_word, values_in};
use crate::said::Said;
use moo_load::DumpReason;
use moo_verbs::print_prep;
use std::alloc::AllocError;

/// Says that the value of this name isn't an object, a text or a flag. The only error is a lack of memory.
pub(crate) fn put_kind(said: &mut Said, what: &str, why: DumpReason) -> Result<(), AllocError> {
    said.put("the ")?;
    said.put(what)?;
    said.put(match why {
        DumpReason::NoObject(_) => " isn't an object, as #4 is",
        DumpReason::NoText(_) => " isn't a text, as \"x\" is",
        _ => " isn't 0 or 1",
    })
}

/// Says the value at a place, from 0, of a line's list; nothing if it has none there. The only error is a lack of memory.
pub(crate) fn put_value_at(said: &mut Said, line: &[u8], place: usize) -> Result<(), AllocError> {
    let values = values_in(said.alloc, line)?;
    match values.get(place) {
        Some(value) => said.put_value(value),
        None => Ok(()),
    }
}

/// The place, from 0, of the letters of rights in the list of a verb's line or a slot's.
fn letters_place(line: &[u8]) -> usize {
    if has_word(line, b"verb") { 3 } else { 4 }
}

/// Says what a dump writes in place of the value at a place of a line's list. The only error is a lack of memory.
fn put_for(said: &mut Said, line: &[u8], place: usize, right: &str) -> Result<(), AllocError> {
    said.put("a dump writes \"")?;
    said.put(right)?;
    said.put("\" for ")?;
    put_value_at(said, line, place)
}

/// Says why a row can't have a value of its line. The only error is a lack of memory.
pub(crate) fn put_row_fault(
    said: &mut Said,
    line: &[u8],
    why: DumpReason,
) -> Result<(), AllocError> {
    match why {
        DumpReason::Letters(bits) => put_for(said, line, letters_place(line), bits.letters()),
        DumpReason::VerbLetters(bits) => put_for(said, line, letters_place(line), bits.letters()),
        DumpReason::Preposition(set) => put_for(said, line, 5, print_prep(set)),
        DumpReason::NoLetters => {
            put_value_at(said, line, letters_place(line))?;
            said.put(" has other letters than r, w and c")
        }
        DumpReason::NoVerbLetters => {
            put_value_at(said, line, letters_place(line))?;
            said.put(" has other letters than r, w, x and d")
        }
        DumpReason::NoPreposition => {
            put_value_at(said, line, 5)?;
            said.put(" isn't a preposition")
        }
        DumpReason::NoObjectSpec(what) => {
            said.put("the ")?;
            said.put(what)?;
            said.put(" isn't \"this\", \"any\" or \"none\"")
        }
        DumpReason::NoPropertyName => {
            put_value_at(said, line, 1)?;
            said.put(" can't name a property: it is built in, or hasn't 1 to 255 bytes")
        }
        _ => said.put(row_sentence(why)),
    }
}

/// Why a row can't have a value, in a sentence that doesn't show the value.
fn row_sentence(why: DumpReason) -> &'static str {
    match why {
        DumpReason::NoVerbNames => "a verb needs a name",
        DumpReason::NoAcceptList => "the accept list isn't 0 or a list of at most 1000 objects",
        DumpReason::NoState => "the letters of a slot are followed by 0, or by 1 and a value",
        DumpReason::NoPetition => "the number of a petition isn't 1 to 4294967294",
        DumpReason::NoCalls => "a petition can't ask for these calls",
        _ => "no number is left for another property or verb",
    }
}
