//! Finding what is wrong in a list that a call is given.

use moo_value::{MooStr, Value, ValueList};
use moo_verbs::read_prep;
use moo_world::CallName;

/// The text that a value in a petition begins with, if it names no call that a petition may ask for. `None` if it names one, or isn't
/// there.
fn unasked_name(held: &Value) -> Option<&Value> {
    let Value::List(values) = held else {
        return None;
    };
    let first = values.items().first()?;
    let Value::Str(text) = first else {
        return None;
    };
    match CallName::read(text.bytes()) {
        Some(name) if name.petition_call().is_none() => None,
        _ => Some(first),
    }
}

/// The first name in a petition that isn't of a call that a petition may ask for; `None` if there is no such name.
pub(crate) fn first_unasked(calls: &ValueList) -> Option<&Value> {
    calls.items().iter().find_map(unasked_name)
}

/// Whether a text is the specifier of a direct or an indirect object: `this`, `any` or `none`, in any case of letters.
fn is_verb_object(text: &MooStr) -> bool {
    let text = text.bytes();
    text.eq_ignore_ascii_case(b"this")
        || text.eq_ignore_ascii_case(b"any")
        || text.eq_ignore_ascii_case(b"none")
}

/// The place, from 0, in the list of a verb's arguments, of the first text that no verb may have there. `None` if the list isn't two texts
/// and a third value.
pub(crate) fn first_unfit(texts: &[Value]) -> Option<usize> {
    let [Value::Str(dobj), Value::Str(prep), _] = texts else {
        return None;
    };
    if !is_verb_object(dobj) {
        return Some(0);
    }
    if read_prep(prep).is_err() {
        return Some(1);
    }
    Some(2)
}
