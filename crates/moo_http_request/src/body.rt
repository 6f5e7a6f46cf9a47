//! What a body asks.

ghost use Rattle.std.specs.{Prelude.{◌≡◌, ◌≤◌, ◌+◌, ◌-◌, Some, length, drop, map, max, IfOk, OnOk, IfErr, OnErr}, Option.{option_map_or}};
ghost use Rattle.moo_http_request.specs.{Body.{form_asked, BodyAsks}, Calls.{calls_from}, Given.{Grows, HasFailed, TakesAtMost}};
ghost use Rattle.moo_http_request.specs.{Plan.{body_size}, Planned.{IsBounded}, Request.{PlanAsks}, Settled.{Settles}, Shape.{shape_of}};
ghost use Rattle.moo_http_request.specs.{Shown.{shape_shown, calls_shown}, declared.head.TheConstants.{MAX_HEAD}};
ghost use Rattle.moo_world.specs.declared.call.TheConstants.{MOST_CALLS};
ghost use Rattle.serde_json.specs.View.{view};

use crate::asked::{Asked, Form, Mode, Refusal};
use crate::each::{Each, read_each};
use crate::fault::ReadFault;
use crate::incoming::Incoming;
use crate::input::read_until;
use crate::plan::Plan;
use crate::refused::Refused;
use crate::shape::{Shape, ShapeRead, read_json, shape_in};
use crate::wrong::{BodyFault, ShapeFault};
use moo_text::call_of;
use moo_world::{Batch, Calls};
use serde_json::Value;
use std::alloc::{AllocError, Global};

/// The calls that the texts of a body are.
#[derive(Drop)]
pub enum CallsRead {
    /// Each text is a call.
    Whole(Calls),
    /// The number, from 1, of the first text that isn't one.
    Bad(u32),
}

/// Reads each text as a call, up to the first that isn't one. AllocError if memory runs out.
fn read_calls(alloc: Global, texts: &[&str]) -> Result<CallsRead, AllocError>
    // The texts are at most 1,000.
    requires { length texts.now ≤ MOST_CALLS }
    ensures { IfOk result (λ read. calls_shown read ≡ calls_from 1 (map (λ text. text.now) texts.now)) }
{
    let mut calls = Vec::new(alloc);
    let mut number = 0;
    for text in texts {
        number += 1;
        match call_of(alloc, text.as_bytes())? {
            Some(call) => calls.push(call)?,
            None => return Ok(CallsRead::Bad(number)),
        }
    }
    Ok(CallsRead::Whole(Calls::from_vec(calls)))
}

/// What is wrong with the body whose call of this number, from 1, isn't one: that text. None if memory for it is refused.
fn bad_call(alloc: Global, texts: &[&str], number: u32) -> Option<BodyFault> {
    let text = texts.get((number as usize).saturating_sub(1))?;
    let text = String::from_str(alloc, text).ok()?;
    Some(BodyFault::Call(text))
}

/// The one batch of the calls of a shape, or a refusal with the number of its first text that isn't a call. AllocError if memory runs out.
fn read_batch(alloc: Global, mode: Mode, shape: &Shape<'_>) -> Result<Asked, AllocError>
    requires { length shape.now.calls.items ≤ MOST_CALLS }
    ensures { IfOk result (λ asked. asked ≡ form_asked (Form.Batch mode) (shape_shown shape.now)) }
{
    match read_calls(alloc, &shape.calls)? {
        CallsRead::Whole(calls) => Ok(Asked::Calls(
            mode,
            Batch {
                programmer: shape.programmer,
                at: shape.at,
                calls,
            },
        )),
        CallsRead::Bad(number) => {
            let wrong = bad_call(alloc, &shape.calls, number);
            Ok(Asked::Refused(Refused::new(Refusal::Malformed(number), wrong)))
        }
    }
}

/// What a body of this shape asks: one batch of its calls, or a batch of each. AllocError if memory runs out.
fn read_asked(alloc: Global, form: Form, shape: &Shape<'_>) -> Result<Asked, AllocError>
    requires { length shape.now.calls.items ≤ MOST_CALLS }
    ensures { IfOk result (λ asked. asked ≡ form_asked form (shape_shown shape.now)) }
{
    match form {
        Form::Batch(mode) => read_batch(alloc, mode, shape),
        Form::Each => Ok(Asked::Each(Each {
            at: shape.at,
            batches: read_each(alloc, shape.programmer, &shape.calls)?,
        })),
    }
}

/// The refusal of a body that isn't JSON, or has another shape. It carries the first check that fails.
fn refuse_shape(fault: ShapeFault) -> Asked
    ensures { result ≡ Asked.Refused Refusal.BadRequest }
{
    Asked::Refused(Refused::new(Refusal::BadRequest, Some(BodyFault::Shape(fault))))
}

/// What a body asks that is this JSON; a bad request if it hasn't the shape. AllocError if memory runs out.
fn read_asked_json(alloc: Global, form: Form, value: &Value) -> Result<Asked, AllocError>
    ensures { IfOk result (λ asked.
        asked ≡ option_map_or (form_asked form) (shape_of (view value.now)) (Asked.Refused Refusal.BadRequest)) }
{
    match shape_in(alloc, value)? {
        ShapeRead::Whole(shape) => read_asked(alloc, form, &shape),
        ShapeRead::Bad(fault) => Ok(refuse_shape(fault)),
    }
}

/// What the bytes of a body ask; a bad request if they aren't JSON of the shape. AllocError if memory runs out.
fn read_asked_body(alloc: Global, form: Form, body: &[u8]) -> Result<Asked, AllocError>
    ensures { IfOk result (BodyAsks form body.now) }
{
    match read_json(alloc, body)? {
        Some(value) => read_asked_json(alloc, form, &value),
        None => Ok(refuse_shape(ShapeFault::NotJson)),
    }
}

/// What a request asks whose head ends at `start` of the bytes, and decides this plan. Nothing is read if the head decides all; else its
/// body is. Read if the reader fails; OutOfMemory if memory runs out.
pub(crate) fn follow_plan<R: Incoming>(
    alloc: Global,
    reader: &mut R,
    bytes: &mut Vec<u8>,
    start: usize,
    plan: Plan,
) -> Result<Asked, ReadFault>
    requires inside { start ≤ length bytes.old.items }
    requires short { start ≤ MAX_HEAD }
    // A body has at most 1,048,576 bytes.
    requires bound { IsBounded plan }
    // What the reader gave follows the bytes that were there.
    ensures grows { OnOk result (Grows (R.remaining reader.old) (R.remaining reader.new) bytes.old.items bytes.new.items) }
    // What is asked is what the plan and the bytes after the head ask, whichever bytes follow.
    ensures asks { IfOk result (λ asked. Settles (R.remaining reader.new) bytes.new.items
        (λ input. PlanAsks plan (drop start input) asked)) }
    // No byte after the body is read.
    ensures few { OnOk result (length bytes.new.items ≤ max (length bytes.old.items) (start + body_size plan)) }
    // After a fault the reader gave no more bytes than the body still lacked.
    ensures breaks { OnErr result
        (TakesAtMost ((start + body_size plan) - length bytes.old.items) (R.remaining reader.old) (R.remaining reader.new)) }
    // Read is answered only if the reader failed.
    ensures cause { IfErr result (λ fault. fault ≡ ReadFault.Read → HasFailed R.fails reader.new) }
{
    match plan {
        Plan::Decided(asked) => Ok(asked),
        Plan::Body(form, size) => {
            let end = start + size as usize;
            if !read_until(reader, bytes, end)? {
                return Ok(Asked::refuse(Refusal::BadRequest));
            }
            let asked = read_asked_body(alloc, form, &bytes[start..end])?;
            Ok(asked)
        }
    }
}
