//! Saying which property a call may have meant.

use crate::given::{Given, SECOND, text_at};
use crate::names::near_distance;
use crate::said::Said;
use moo_disclosure::Disclosure;
use moo_value::MooStr;
use moo_world::BuiltIn;
use std::alloc::AllocError;

/// The first of the names that differ from a word in the fewest bytes; `None` if none is near (`near_distance`).
fn nearest<'a>(word: &MooStr, names: &'a [MooStr]) -> Option<&'a MooStr> {
    let mut found = None;
    let mut least = word.bytes().len();
    for name in names {
        let changed = near_distance(word.bytes(), name.bytes()).unwrap_or(usize::MAX);
        if changed < least {
            found = Some(name);
            least = changed;
        }
    }
    found
}

/// Says which property a call may have meant, if it fails since no property has the name that it gives: a property whose name is disclosed.
/// The only error is a lack of memory.
pub(crate) fn tell_nearest(
    said: &mut Said,
    given: Given<'_>,
    disclosed: &Disclosure,
) -> Result<(), AllocError> {
    let Some(word) = text_at(given, SECOND) else {
        return Ok(());
    };
    if BuiltIn::of_name(word).is_some() {
        return Ok(());
    }
    if let Some(name) = nearest(word, &disclosed.meant) {
        said.put(b" (did you mean ")?;
        said.put_text(name)?;
        said.put(b"?)")?;
    }
    Ok(())
}
