//! How a text differs from the dump of the rows that were read from it.

ghost use Rattle.moo_world.specs.Rows.{IsGood};

use crate::place::{line_at, line_from};
use crate::reason::DumpReason;
use moo_dump::dump;
use moo_rows::Rows;
use std::alloc::{AllocError, Global};

/// The number of the first line of a text, after the line of a number, that has the bytes of a line. `None` if there is no such line.
fn same_line_after(text: &[u8], number: u64, line: &[u8]) -> Option<u64> {
    let mut at: u64 = 0;
    for other in text.split(|byte| *byte == b'\n') {
        at = at.saturating_add(1);
        if number < at && other == line {
            return Some(at);
        }
    }
    None
}

/// The place at which a line of a text begins, by any place in the line.
fn start_of(text: &[u8], place: usize) -> usize {
    let front = text.get(..place).unwrap_or(text);
    match front.iter().rposition(|byte| *byte == b'\n') {
        Some(end) => end.saturating_add(1),
        None => 0,
    }
}

/// The line that begins at a place of a dump; `None` if the dump ends before it.
fn line_of(dump: &[u8], start: usize) -> Option<&[u8]> {
    if start < dump.len() {
        line_from(dump, start)
    } else {
        None
    }
}

/// How a text differs from a dump, whose bytes it has up to a place: it goes on after the end of the dump, a later line of it belongs
/// here, or the line is written in another way.
fn difference(text: &[u8], dump: &[u8], place: usize) -> DumpReason {
    let start = start_of(dump, place);
    let Some(line) = line_of(dump, start) else {
        return DumpReason::AfterEnd;
    };
    let number = if place <= text.len() {
        line_at(text, place)
    } else {
        0
    };
    match same_line_after(text, number, line) {
        Some(other) => DumpReason::LineFirst(other),
        None => DumpReason::Spelling(place.saturating_sub(start)),
    }
}

/// How a text differs from the dump of the rows, whose bytes it has up to a place. AllocError: memory ran out.
pub(crate) fn difference_at<R: Rows>(
    alloc: Global,
    rows: &R,
    text: &[u8],
    place: usize,
) -> Result<DumpReason, AllocError>
    // The rows are good: sound rows of a well formed world, and petitions as they may be beside it.
    requires { IsGood (R.held rows.now).maps }
{
    let mut whole = Vec::new(alloc);
    match dump(alloc, rows, &mut whole) {
        Ok(()) => Ok(difference(text, &whole, place)),
        Err(_) => Err(AllocError),
    }
}
