//! Telling which line is wanted in the place of another.

use crate::finding::counted_line;
use crate::said::Said;
use crate::values::put_value_at;
use moo_load::DumpReason;
use moo_rows::PropId;
use std::alloc::AllocError;

/// Says that the slot of the property of a count, from 1, in the text is wanted. The only error is a lack of memory.
pub(crate) fn put_slot_wanted(said: &mut Said, text: &[u8], count: i64) -> Result<(), AllocError> {
    said.put("the slot of ")?;
    if let Some(found) = counted_line(said.alloc, text, b"property", count)? {
        if let [definer, name, ..] = found.values.as_slice() {
            said.put_value(definer)?;
            said.put("'s property ")?;
            said.put_value(name)?;
            return said.put(" is wanted here");
        }
    }
    said.put("another property is wanted here")
}

/// Says why a line is out of its place, or that a dump writes it in another way. The only error is a lack of memory.
pub(crate) fn put_order(
    said: &mut Said,
    text: &[u8],
    line: &[u8],
    why: DumpReason,
) -> Result<(), AllocError> {
    match why {
        DumpReason::SlotFirst(PropId(id)) => put_slot_wanted(said, text, i64::from(id)),
        DumpReason::NoDefiner(definer) => {
            said.put_object(definer)?;
            said.put(" isn't an object of the dump")
        }
        DumpReason::NoProperty => {
            put_value_at(said, line, 1)?;
            said.put(" has no property ")?;
            put_value_at(said, line, 2)?;
            said.put(" whose slot isn't written yet")
        }
        DumpReason::LineFirst(number) => {
            said.put("line ")?;
            said.put_number(number)?;
            said.put(" is wanted here")
        }
        DumpReason::Spelling(front) => {
            said.put("a dump writes the line in another way after its first ")?;
            said.put_number(front as u64)?;
            said.put(" bytes")
        }
        DumpReason::AfterEnd => said.put("the dump has ended before it"),
        _ => said.put("a dump has another line here"),
    }
}
