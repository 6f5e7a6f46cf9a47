//! The status and the body of what came of a request.

ghost use Rattle.std.specs.Prelude.{◌≡◌, Some, None, IfOk, option_map, codes, string_bytes};
ghost use Rattle.moo_http_request.specs.Plan.{method_of, method_text};
ghost use Rattle.moo_http_response.specs.Responses.{plain, json, told_refusal, told_reply, told_response, response_with};
ghost use Rattle.moo_http_response.specs.{Bodies.{error_body, call_body, stale_body, accepted_body}, EachBodies.{each_body}};
ghost use Rattle.moo_http_response.specs.{HeadWhys.{head_told}, Whys.{whys_shown}, Shown.{Shows}};

use crate::bodies::{
    accepted_text, call_text_with_why, error_text, error_text_with_why, stale_text,
};
use crate::each_body::each_text;
use crate::head_whys::head_told;
use crate::outcome::RequestOutcome;
use crate::replies::Replies;
use crate::response::Response;
use crate::told::{Told, kind_of, status_of, told_bytes};
use crate::whys::why_of;
use http::StatusCode;
use moo_http_request::{Endpoint, Refusal};
use moo_text::Reply;
use moo_world::Answers;
use std::alloc::{AllocError, Global};

/// The name of the method of a route.
fn method_name(endpoint: Endpoint) -> &'static str
    ensures { result.now ≡ method_text (method_of endpoint) }
{
    match endpoint {
        Endpoint::Batch(_) | Endpoint::Each => "POST",
        Endpoint::About(_) => "GET",
    }
}

/// The response with this status and this body of JSON, without a line `allow`.
fn json_response(status: StatusCode, body: String) -> Response
    ensures status { result.status ≡ status }
    ensures allow { result.allow ≡ None }
    ensures kind { result.kind.now ≡ codes "application/json" }
    ensures body { result.body.items ≡ string_bytes body }
{
    Response {
        status,
        allow: None,
        kind: "application/json",
        body: body.into_bytes(),
    }
}

/// The response with this status and a word under `error`. AllocError if memory runs out.
fn error_response(alloc: Global, status: StatusCode, word: &str) -> Result<Response, AllocError>
    ensures { IfOk result (λ r. Shows r (plain status (error_body None word.now))) }
{
    let body = error_text(alloc, word)?;
    Ok(json_response(status, body))
}

/// The response with this status, a word under `error`, and why under `why`, if that is told. AllocError if memory runs out.
fn error_response_with_why(
    alloc: Global,
    status: StatusCode,
    word: &str,
    why: Option<&str>,
) -> Result<Response, AllocError>
    ensures { IfOk result (λ r. Shows r (plain status (error_body (option_map (λ w. w.now) why.entry) word.now))) }
{
    let body = error_text_with_why(alloc, word, why)?;
    Ok(json_response(status, body))
}

/// The response with this status that tells of a call: its number, what befell it, and why, if told. AllocError if memory runs out.
fn call_response(
    alloc: Global,
    status: StatusCode,
    call: u32,
    word: &str,
    why: Option<&str>,
) -> Result<Response, AllocError>
    ensures { IfOk result (λ r. Shows r (plain status (call_body (option_map (λ w. w.now) why.entry) call word.now))) }
{
    let body = call_text_with_why(alloc, call, word, why)?;
    Ok(json_response(status, body))
}

/// The response to a batch that named another number of accepted batches than the present one: 409. AllocError if memory runs out.
fn stale_response(alloc: Global, seq: u64) -> Result<Response, AllocError>
    ensures { IfOk result (λ r. Shows r (plain 409 (stale_body seq))) }
{
    let body = stale_text(alloc, seq)?;
    Ok(json_response(StatusCode::CONFLICT, body))
}

/// The response to an accepted batch: 200, with its answers. AllocError if memory runs out.
fn accepted_response(alloc: Global, answers: &Answers, seq: u64) -> Result<Response, AllocError>
    ensures { IfOk result (λ r. Shows r (plain 200 (accepted_body answers.now seq))) }
{
    let body = accepted_text(alloc, answers.items(), seq)?;
    Ok(json_response(StatusCode::OK, body))
}

/// The response to calls that are asked each alone: 200, with the reply to each. AllocError if memory runs out.
fn each_response(
    alloc: Global,
    replies: &Replies,
    seq: u64,
    whys: &[Option<String>],
) -> Result<Response, AllocError>
    ensures { IfOk result (λ r. Shows r (plain 200 (each_body (whys_shown whys.now) replies.now seq))) }
{
    let body = each_text(alloc, replies, seq, whys)?;
    Ok(json_response(StatusCode::OK, body))
}

/// The response to a question, by what it is told: 404 if the object isn't there, else 200. AllocError if memory runs out.
fn question_response(alloc: Global, told: Told) -> Result<Response, AllocError>
    ensures { IfOk result (λ r. Shows r (told_response told)) }
{
    let status = status_of(&told);
    let kind = kind_of(&told);
    let body = told_bytes(alloc, told)?;
    Ok(Response {
        status,
        allow: None,
        kind,
        body,
    })
}

/// The response to a request whose body has no stated length: 400, and why, if the request asks. AllocError if memory runs out.
fn no_length_response(
    alloc: Global,
    asks_why: bool,
    refusal: Refusal,
) -> Result<Response, AllocError>
    ensures { IfOk result (λ r. Shows r (plain 400 (error_body (head_told asks_why refusal) (codes "bad request")))) }
{
    let why = head_told(asks_why, refusal);
    error_response_with_why(alloc, StatusCode::BAD_REQUEST, "bad request", why)
}

/// The response to a path that asks nothing: 404, and why, if the request asks. AllocError if memory runs out.
fn not_found_response(
    alloc: Global,
    asks_why: bool,
    refusal: Refusal,
) -> Result<Response, AllocError>
    ensures { IfOk result (λ r. Shows r (plain 404 (error_body (head_told asks_why refusal) (codes "not found")))) }
{
    let why = head_told(asks_why, refusal);
    error_response_with_why(alloc, StatusCode::NOT_FOUND, "not found", why)
}

/// The response to a request with a method that its route hasn't: 405, a line `allow`, and why if asked. AllocError if memory runs out.
fn not_allowed_response(
    alloc: Global,
    asks_why: bool,
    endpoint: Endpoint,
) -> Result<Response, AllocError>
    ensures { IfOk result (λ r. Shows r (json 405 (Some (method_text (method_of endpoint)))
        (error_body (head_told asks_why (Refusal.NotAllowed endpoint)) (codes "method not allowed")))) }
{
    let why = head_told(asks_why, Refusal::NotAllowed(endpoint));
    let body = error_text_with_why(alloc, "method not allowed", why)?;
    Ok(Response {
        status: StatusCode::METHOD_NOT_ALLOWED,
        allow: Some(method_name(endpoint)),
        kind: "application/json",
        body: body.into_bytes(),
    })
}

/// The response to a request that is refused before the World is asked. `why` is the sentence about a body, of `BadRequest` and
/// `Malformed`, if it is told; a refused head has a sentence of its own, told if the request asks why. AllocError if memory runs out.
fn refusal_response(
    alloc: Global,
    refusal: Refusal,
    asks_why: bool,
    why: Option<&str>,
) -> Result<Response, AllocError>
    ensures { IfOk result (λ r. Shows r (told_refusal asks_why (option_map (λ w. w.now) why.entry) refusal)) }
{
    match refusal {
        Refusal::BadRequest => error_response_with_why(
            alloc,
            StatusCode::BAD_REQUEST,
            "bad request",
            why,
        ),
        Refusal::Forbidden => error_response(alloc, StatusCode::FORBIDDEN, "forbidden"),
        Refusal::Coded => no_length_response(alloc, asks_why, Refusal::Coded),
        Refusal::NoLength => no_length_response(alloc, asks_why, Refusal::NoLength),
        Refusal::NotFound => not_found_response(alloc, asks_why, Refusal::NotFound),
        Refusal::NoNumber(topic) => not_found_response(alloc, asks_why, Refusal::NoNumber(topic)),
        Refusal::NotAllowed(endpoint) => not_allowed_response(alloc, asks_why, endpoint),
        Refusal::TooLarge => error_response(alloc, StatusCode::PAYLOAD_TOO_LARGE, "too large"),
        Refusal::Malformed(call) => {
            call_response(alloc, StatusCode::BAD_REQUEST, call, "malformed", why)
        }
    }
}

/// The response if memory or ticks ran out: 503, and which call spent the ticks, if that is told.
fn no_memory_response(alloc: Global, why: Option<&str>) -> Result<Response, AllocError>
    ensures { IfOk result (λ r. Shows r (told_reply (option_map (λ w. w.now) why.entry) Reply.NoMemory)) }
{
    error_response_with_why(alloc, StatusCode::SERVICE_UNAVAILABLE, "nomemory", why)
}

/// The response to a batch, by its reply, and why the batch is refused, if that is told. AllocError if memory runs out.
fn reply_response(alloc: Global, reply: &Reply, why: Option<&str>) -> Result<Response, AllocError>
    ensures { IfOk result (λ r. Shows r (told_reply (option_map (λ w. w.now) why.entry) reply.now)) }
{
    match reply {
        Reply::NoMemory => no_memory_response(alloc, why),
        Reply::Stale { seq } => stale_response(alloc, *seq),
        Reply::Refused { call, code } => {
            call_response(alloc, StatusCode::CONFLICT, *call, code.name(), why)
        }
        Reply::Full { call } => call_response(alloc, StatusCode::CONFLICT, *call, "full", why),
        Reply::Accepted { seq, answers } => accepted_response(alloc, answers, *seq),
    }
}

/// The response to a request, by what came of it. `whys` are the sentences that say why, if they are told: of calls that are asked each
/// alone one for each, else the first. AllocError if memory runs out.
pub(crate) fn respond(
    alloc: Global,
    outcome: RequestOutcome,
    asks_why: bool,
    whys: &[Option<String>],
) -> Result<Response, AllocError>
    ensures { IfOk result (λ r. Shows r (response_with asks_why (whys_shown whys.now) outcome)) }
{
    match outcome {
        RequestOutcome::Refused(refusal) => refusal_response(
            alloc,
            refusal,
            asks_why,
            why_of(whys, 0),
        ),
        RequestOutcome::Closed => error_response(alloc, StatusCode::SERVICE_UNAVAILABLE, "closed"),
        RequestOutcome::Fault => error_response(alloc, StatusCode::SERVICE_UNAVAILABLE, "fault"),
        RequestOutcome::NoMemory => no_memory_response(alloc, why_of(whys, 0)),
        RequestOutcome::Replied(reply) => reply_response(alloc, &reply, why_of(whys, 0)),
        RequestOutcome::Each(replies, seq) => each_response(alloc, &replies, seq, whys),
        RequestOutcome::Told(told) => question_response(alloc, told),
    }
}
