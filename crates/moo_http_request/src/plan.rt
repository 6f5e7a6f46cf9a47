//! What the head of a request alone decides.

ghost use Rattle.std.specs.Prelude.{◌≡◌, All, IsUtf8, length, map, bytes_eq, if◌then◌else◌};
ghost use Rattle.httparse.specs.Spans.{IsHeaderWithin, header_bytes};
ghost use Rattle.moo_http_request.specs.Plan.{path_of, is_why_query, is_why, method_of, method_text, length_of, body_plan, question_plan};
ghost use Rattle.moo_http_request.specs.Plan.{endpoint_plan, path_refusal, routed_plan, is_guarded, allowed_plan, plan_of};
ghost use Rattle.moo_http_request.specs.{Planned.{IsBounded}, Lines.{is_coded, is_from_page}, Routes.{endpoint_of}};

use crate::asked::{Asked, Form, Method, Refusal};
use crate::host::is_for_us;
use crate::lines::{is_coded, is_from_page, stated_length};
use crate::numbers::number_at_most;
use crate::question::{Question, Topic};
use crate::routes::{Endpoint, Routes};
use httparse::spans::HeaderSpan;
use std::str;

/// How many bytes a body has at the most.
pub const MAX_BODY: u64 = 1_048_576;

/// What the head of a request decides: what is asked, or that a body says it, with its length.
#[derive(Drop)]
pub enum Plan {
    /// The head alone says what is asked.
    Decided(Asked),
    /// The body says it, which has so many bytes.
    Body(Form, u64),
}

/// The path of a target: what is before its first question mark.
fn path_of(target: &str) -> &str
    ensures { result.now ≡ path_of target.now }
{
    target.split_once('?').map_or(target, |(path, _)| path)
}

/// Whether a query asks why a request is refused: it is `why`, `why=` or `why=1`.
fn is_why_query(query: &str) -> bool
    ensures { result ≡ is_why_query query.now }
{
    query == "why" || query == "why=" || query == "why=1"
}

/// Whether what follows the first question mark of a target asks why its request is refused.
fn has_why_query(target: &str) -> bool
    ensures { result ≡ is_why target.now }
{
    target
        .split_once('?')
        .is_some_and(|(_, query)| is_why_query(query))
}

/// Whether a target asks to be told why its request is refused, if it is refused.
pub(crate) fn asks_why(target: &[u8]) -> bool
    requires text { IsUtf8 target.now }
    ensures { result ≡ is_why target.now }
{
    str::from_utf8(target).is_ok_and(has_why_query)
}

/// The method of a route: POST if batches or calls are sent to it, GET if it answers a question.
fn method_of(endpoint: Endpoint) -> Method
    ensures { result ≡ method_of endpoint }
{
    match endpoint {
        Endpoint::Batch(_) | Endpoint::Each => Method::Post,
        Endpoint::About(_) => Method::Get,
    }
}

/// Whether the method of a request is the one that its route has.
fn is_method(method: &[u8], wanted: Method) -> bool
    ensures { result ≡ bytes_eq method.now (method_text wanted) }
{
    match wanted {
        Method::Get => method == b"GET".as_slice(),
        Method::Post => method == b"POST".as_slice(),
    }
}

/// The stated length of the body; None if it isn't stated once, in 1 to 10 digits, or a coding is beside it.
fn body_length(bytes: &[u8], lines: &[HeaderSpan]) -> Option<u64>
    // The places of the lines are inside the bytes.
    requires within { All (IsHeaderWithin (length bytes.now)) lines.now }
    ensures { result ≡ length_of (map (header_bytes bytes.now) lines.now) }
{
    let text = stated_length(bytes, lines)?;
    if text.len() <= 10 {
        number_at_most(text, 9_999_999_999)
    } else {
        None
    }
}

/// Why a request whose body has no stated length is refused: a line names a coding, or else no line states a length in 1 to 10 digits, or
/// more than one line does.
fn length_refusal(bytes: &[u8], lines: &[HeaderSpan]) -> Refusal
    // The places of the lines are inside the bytes.
    requires within { All (IsHeaderWithin (length bytes.now)) lines.now }
    ensures { result ≡ (if is_coded (map (header_bytes bytes.now) lines.now) then Refusal.Coded else Refusal.NoLength) }
{
    if is_coded(bytes, lines) {
        Refusal::Coded
    } else {
        Refusal::NoLength
    }
}

/// The plan of a request with a body, which is read by its stated length. It is refused if `body_length` finds none (so also if a coding is
/// beside it), or one over 1,048,576 bytes.
fn plan_body(form: Form, bytes: &[u8], lines: &[HeaderSpan]) -> Plan
    // The places of the lines are inside the bytes.
    requires within { All (IsHeaderWithin (length bytes.now)) lines.now }
    ensures value { let head = map (header_bytes bytes.now) lines.now in result ≡ body_plan form head (length_of head) }
    // A body that is to be read has at most 1,048,576 bytes.
    ensures bound { IsBounded result }
{
    match body_length(bytes, lines) {
        Some(length) => {
            if MAX_BODY < length {
                Plan::Decided(Asked::refuse(Refusal::TooLarge))
            } else {
                Plan::Body(form, length)
            }
        }
        None => Plan::Decided(Asked::refuse(length_refusal(bytes, lines))),
    }
}

/// The plan of a GET about this topic: the question that its path asks, or a refusal, since the path has no number where the topic needs
/// one.
fn plan_question(topic: Topic, question: Option<Question>) -> Plan
    ensures value { result ≡ question_plan topic question }
    // A body that is to be read has at most 1,048,576 bytes.
    ensures bound { IsBounded result }
{
    match question {
        Some(question) => Plan::Decided(Asked::Question(question)),
        None => Plan::Decided(Asked::refuse(Refusal::NoNumber(topic))),
    }
}

/// The plan of a request with the method of its route: the route reads a body, or its path asks a question.
fn plan_endpoint(endpoint: Endpoint, path: &[u8], bytes: &[u8], lines: &[HeaderSpan]) -> Plan
    // The places of the lines are inside the bytes.
    requires within { All (IsHeaderWithin (length bytes.now)) lines.now }
    ensures value { result ≡ endpoint_plan endpoint path.now (map (header_bytes bytes.now) lines.now) }
    // A body that is to be read has at most 1,048,576 bytes.
    ensures bound { IsBounded result }
{
    match endpoint {
        Endpoint::Batch(mode) => plan_body(Form::Batch(mode), bytes, lines),
        Endpoint::Each => plan_body(Form::Each, bytes, lines),
        Endpoint::About(topic) => plan_question(topic, topic.question(path)),
    }
}

/// Whether a route is refused to a request that names another machine. The page of a browser whose name was made to lead here does so, and
/// has no line `origin` with a GET.
fn is_guarded(endpoint: Endpoint) -> bool
    ensures { result ≡ is_guarded endpoint }
{
    match endpoint {
        Endpoint::Batch(_) | Endpoint::About(Topic::Seq) | Endpoint::About(Topic::Object) => false,
        Endpoint::Each => true,
        Endpoint::About(Topic::Objects) | Endpoint::About(Topic::Dump) => true,
    }
}

/// The plan of a request that may use its route: it is refused if it has another method than the route, else the route plans it.
fn plan_allowed(
    endpoint: Endpoint,
    method: &[u8],
    path: &[u8],
    bytes: &[u8],
    lines: &[HeaderSpan],
) -> Plan
    // The places of the lines are inside the bytes.
    requires within { All (IsHeaderWithin (length bytes.now)) lines.now }
    ensures value { result ≡ allowed_plan endpoint method.now path.now (map (header_bytes bytes.now) lines.now) }
    // A body that is to be read has at most 1,048,576 bytes.
    ensures bound { IsBounded result }
{
    let wanted = method_of(endpoint);
    if is_method(method, wanted) {
        plan_endpoint(endpoint, path, bytes, lines)
    } else {
        Plan::Decided(Asked::refuse(Refusal::NotAllowed(endpoint)))
    }
}

/// Why a path has no route: it names the topic of an object or of objects and leaves out the number, or it names nothing of the service.
fn path_refusal(path: &[u8]) -> Refusal
    ensures { result ≡ path_refusal path.now }
{
    if path == b"/object".as_slice() || path == b"/object/".as_slice() {
        Refusal::NoNumber(Topic::Object)
    } else if path == b"/objects".as_slice() || path == b"/objects/".as_slice() {
        Refusal::NoNumber(Topic::Objects)
    } else {
        Refusal::NotFound
    }
}

/// The plan of a request, by the route of its path: it is refused if there is no route, and then if it is for another machine and the route
/// is guarded. Then its method is looked at.
fn plan_route(
    endpoint: Option<Endpoint>,
    method: &[u8],
    path: &[u8],
    bytes: &[u8],
    lines: &[HeaderSpan],
) -> Plan
    // The places of the lines are inside the bytes.
    requires within { All (IsHeaderWithin (length bytes.now)) lines.now }
    ensures value { result ≡ routed_plan endpoint method.now path.now (map (header_bytes bytes.now) lines.now) }
    // A body that is to be read has at most 1,048,576 bytes.
    ensures bound { IsBounded result }
{
    match endpoint {
        Some(endpoint) => {
            if is_guarded(endpoint) && !is_for_us(bytes, lines) {
                return Plan::Decided(Asked::refuse(Refusal::Forbidden));
            }
            plan_allowed(endpoint, method, path, bytes, lines)
        }
        None => Plan::Decided(Asked::refuse(path_refusal(path))),
    }
}

/// The plan of a request, by the path of its target. A request that a page of a browser sent is refused, no matter what it asks.
fn plan_path(routes: &Routes, method: &[u8], path: &str, bytes: &[u8], lines: &[HeaderSpan]) -> Plan
    // The places of the lines are inside the bytes.
    requires within { All (IsHeaderWithin (length bytes.now)) lines.now }
    ensures value { let head = map (header_bytes bytes.now) lines.now in
        result ≡ (if is_from_page head then Plan.Decided (Asked.Refused Refusal.Forbidden)
        else routed_plan (endpoint_of path.now) method.now path.now head) }
    // A body that is to be read has at most 1,048,576 bytes.
    ensures bound { IsBounded result }
{
    if is_from_page(bytes, lines) {
        return Plan::Decided(Asked::refuse(Refusal::Forbidden));
    }
    plan_route(
        routes.endpoint_of(path),
        method,
        path.as_bytes(),
        bytes,
        lines,
    )
}

/// What a head decides, by its method, its target, and its lines, which are at these places of the bytes.
pub(crate) fn make_plan(
    routes: &Routes,
    method: &[u8],
    target: &[u8],
    bytes: &[u8],
    lines: &[HeaderSpan],
) -> Plan
    // The places of the lines are inside the bytes.
    requires within { All (IsHeaderWithin (length bytes.now)) lines.now }
    requires text { IsUtf8 target.now }
    ensures value { result ≡ plan_of method.now target.now (map (header_bytes bytes.now) lines.now) }
    // A body that is to be read has at most 1,048,576 bytes.
    ensures bound { IsBounded result }
{
    match str::from_utf8(target) {
        Ok(target) => plan_path(routes, method, path_of(target), bytes, lines),
        Err(_) => unreachable!(),
    }
}
