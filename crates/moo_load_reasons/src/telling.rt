//! Telling why a text gives no world, in words for people. Nothing that is proved rests on them.

use crate::bad_lines::put_broken;
use crate::damage::put_damage;
use crate::finding::line_numbered;
use crate::order::put_order;
use crate::said::Said;
use crate::values::{put_kind, put_row_fault};
use moo_load::{DumpReason, LoadFault};
use std::alloc::{AllocError, Global};

/// What is wrong with a text that gives no world: `line 18: not a dump: a value is followed by ', '`. A damage that is in no line
/// is told without one. `None` if memory ran out while the text was loaded.
///
/// Nothing is proved of the words. AllocError: memory ran out.
pub fn why_of_fault(
    alloc: Global,
    text: &[u8],
    fault: LoadFault,
) -> Result<Option<String>, AllocError> {
    let mut said = Said::new(alloc);
    match fault {
        LoadFault::NotADump(number, why) => {
            said.put_place(Some(number))?;
            put_reason(&mut said, text, number, why)?;
        }
        LoadFault::Damaged(kind, key) => put_damage(&mut said, text, kind, key)?,
        LoadFault::OutOfMemory => return Ok(None),
    }
    Ok(Some(said.into_text()))
}

/// Says what is wrong with the line of a number, by the reason for which loading refused it. The only error is a lack of memory.
fn put_reason(
    said: &mut Said,
    text: &[u8],
    number: u64,
    why: DumpReason,
) -> Result<(), AllocError> {
    let line = line_numbered(text, number);
    match why {
        DumpReason::NoEnd
        | DumpReason::NoHeading
        | DumpReason::NoRow
        | DumpReason::NoList
        | DumpReason::NoValue(_)
        | DumpReason::NoSeparator => put_broken(said, line, number, why),
        DumpReason::SlotFirst(_)
        | DumpReason::NoDefiner(_)
        | DumpReason::NoProperty
        | DumpReason::LineFirst(_)
        | DumpReason::Spelling(_)
        | DumpReason::AfterEnd
        | DumpReason::Differs => put_order(said, text, line, why),
        DumpReason::Count(right) => {
            said.put("the list of ")?;
            said.put(right)
        }
        DumpReason::NoObject(what) | DumpReason::NoText(what) | DumpReason::NoFlag(what) => {
            put_kind(said, what, why)
        }
        _ => put_row_fault(said, line, why),
    }
}
