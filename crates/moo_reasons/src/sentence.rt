//! Saying why a batch is refused, from the batch, the refusal and its facts, without the rows.

use crate::given::given_by;
use crate::nearest::tell_nearest;
use crate::petitions::{petitioned_value, tell_petitioned};
use crate::said::Said;
use crate::telling::tell;
use moo_batch::{Facts, Refusal};
use moo_world::{Batch, Call};
use std::alloc::{AllocError, Global};

/// Says the error with which the batch is refused. AllocError: memory ran out.
fn put_error(said: &mut Said, refusal: Refusal) -> Result<(), AllocError> {
    said.put(refusal.reason.code().name().as_bytes())
}

/// Says the call with its values, the error with which it is refused, and why. AllocError: memory ran out.
fn put_sentence(
    said: &mut Said,
    batch: &Batch,
    call: &Call,
    refusal: Refusal,
    facts: &Facts<'_>,
) -> Result<(), AllocError> {
    said.put_call(call.name, call.args.items())?;
    said.put(b": ")?;
    put_error(said, refusal)?;
    let given = given_by(batch.programmer, call);
    match refusal.held {
        None => {
            tell(said, b", ", given, refusal.reason, &facts.names)?;
            tell_nearest(said, given, &facts.names)
        }
        Some(place) => {
            let held = petitioned_value(batch, given, facts, place);
            tell_petitioned(said, given, held, refusal.reason, &facts.names)
        }
    }
}

/// The call of a batch with its values, the error with which it is refused, and why: which check failed. Of a grant: which of the calls of
/// its petition failed. AllocError: memory ran out.
pub(crate) fn refusal_text(
    alloc: Global,
    batch: &Batch,
    refusal: Refusal,
    facts: &Facts<'_>,
) -> Result<Said, AllocError> {
    let mut said = Said::new(alloc);
    let place = (refusal.call as usize).saturating_sub(1);
    match batch.calls.items().get(place) {
        Some(call) => put_sentence(&mut said, batch, call, refusal, facts)?,
        None => put_error(&mut said, refusal)?,
    }
    Ok(said)
}
