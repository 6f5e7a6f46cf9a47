//! Saying which call of a petition is refused when a wizard grants it.

use crate::given::{FIRST, Given, given_by, list_at, value_at};
use crate::said::Said;
use crate::telling::{put_some, tell};
use moo_batch::{Facts, held_call};
use moo_disclosure::Disclosure;
use moo_value::{Value, ValueList};
use moo_world::{Batch, CallName, Reason};
use std::alloc::AllocError;

/// The calls of the petition that a batch makes under a number, if the first petition of the batch gets the number `next`. `None` if the
/// batch makes none under it.
fn calls_asked<'a>(batch: &'a Batch, next: u32, number: u32) -> Option<&'a ValueList> {
    let mut left = number.checked_sub(next)?;
    for call in batch.calls.items() {
        if !matches!(call.name, CallName::Petition) {
            continue;
        }
        if left == 0 {
            return list_at(given_by(batch.programmer, call), FIRST);
        }
        left -= 1;
    }
    None
}

/// The number of the petition that a `grant` names; `None` if it gives no number of 32 bits.
fn petition_number(grant: Given<'_>) -> Option<u32> {
    let Some(Value::Int(number)) = value_at(grant, FIRST) else {
        return None;
    };
    u32::try_from(*number).ok()
}

/// The calls of the petition that a `grant` of a batch names: as disclosed, or as the batch makes it. `None` if it is neither.
fn calls_granted<'a>(
    batch: &'a Batch,
    grant: Given<'_>,
    facts: &Facts<'a>,
) -> Option<&'a ValueList> {
    match facts.petition {
        Some(calls) => Some(calls),
        None => calls_asked(batch, facts.next_petition, petition_number(grant)?),
    }
}

/// The value that stands for the call at a place, from 0, of the petition that a `grant` of a batch names: for a sound call the list
/// `{name, argument, ..}`. `None` if the petition isn't disclosed and isn't of this batch, or if it has no call at this place.
pub(crate) fn petitioned_value<'a>(
    batch: &'a Batch,
    grant: Given<'_>,
    facts: &Facts<'a>,
    place: u32,
) -> Option<&'a Value> {
    calls_granted(batch, grant, facts)?
        .items()
        .get(place as usize)
}

/// The call that a value in a petition is, its name and its values; `None` if it isn't a call on the world.
fn petitioned_call<'a>(held: Option<&'a Value>) -> Option<(CallName, &'a [Value])> {
    held_call(held?)
}

/// Says the number of the petition that a `grant` names. The only error is a lack of memory.
fn put_petition(said: &mut Said, grant: Given<'_>) -> Result<(), AllocError> {
    said.put(b" of petition ")?;
    put_some(said, value_at(grant, FIRST))
}

/// Says after a comma which call of a petition fails, and why. AllocError: memory ran out.
pub(crate) fn tell_petitioned(
    said: &mut Said,
    grant: Given<'_>,
    held: Option<&Value>,
    reason: Reason,
    disclosed: &Disclosure,
) -> Result<(), AllocError> {
    let Some((name, values)) = petitioned_call(held) else {
        said.put(b", a call")?;
        put_petition(said, grant)?;
        return said.put(b" names no call on the world");
    };
    said.put(b", ")?;
    said.put_call(name, values)?;
    put_petition(said, grant)?;
    let given = Given {
        programmer: grant.programmer,
        name,
        values,
    };
    tell(said, b": ", given, reason, disclosed)
}
