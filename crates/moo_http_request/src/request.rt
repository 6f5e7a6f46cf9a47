//! What the bytes of a connection ask.

ghost use Rattle.std.specs.Prelude.{◌≡◌, IfOk, IfErr, OnErr};
ghost use Rattle.httparse.specs.{Grammar.{RequestHead}, Spans.{IsRequestAt, IsRequestWithin, IsRequestOf}};
ghost use Rattle.moo_http_request.specs.{Given.{HasFailed}, Plan.{plan_by, is_head as is_head_of, asks_why as asks_why_of}};
ghost use Rattle.moo_http_request.specs.{Planned.{IsBounded}, Request.{Takes, StopsReading}};

use crate::asked::{Asked, Refusal};
use crate::body::follow_plan;
use crate::fault::ReadFault;
use crate::head::{HeadRead, HeadSpans, read_head};
use crate::incoming::Incoming;
use crate::plan::{self, Plan, make_plan};
use crate::routes::Routes;
use std::alloc::Global;

/// What the bytes of a connection ask.
#[derive(Drop)]
pub enum Received {
    /// There are none.
    Nothing,
    /// There are some; whether their method is HEAD, whether it is to be said why they are refused if they are, and what they ask.
    Request {
        is_head: bool,
        asks_why: bool,
        asked: Asked,
    },
}

/// Whether the method of a head is HEAD.
fn is_head(bytes: &[u8], head: &HeadSpans) -> bool
    // The places of the parts of the head are inside the bytes.
    requires within { IsRequestWithin bytes.now head.now.headers head.now.spans }
    ensures { (parts : RequestHead) → IsRequestAt bytes.now head.now.headers head.now.spans parts → result ≡ is_head_of parts }
{
    head.spans.method.of(bytes) == b"HEAD".as_slice()
}

/// Whether it is to be said why, if a request with this head is refused.
fn asks_why(bytes: &[u8], head: &HeadSpans) -> bool
    // The places of the parts of the head are inside the bytes.
    requires within { IsRequestWithin bytes.now head.now.headers head.now.spans }
    requires found { IsRequestOf bytes.now head.now.headers head.now.spans }
    ensures { (parts : RequestHead) → IsRequestAt bytes.now head.now.headers head.now.spans parts → result ≡ asks_why_of parts }
{
    plan::asks_why(head.spans.path.of(bytes))
}

/// What a head decides, whose parts are at these places of the bytes.
pub(crate) fn plan_head(routes: &Routes, bytes: &[u8], head: &HeadSpans) -> Plan
    // The places are inside the bytes, and the parts of a head were found there.
    requires within { IsRequestWithin bytes.now head.now.headers head.now.spans }
    requires found { IsRequestOf bytes.now head.now.headers head.now.spans }
    ensures value { (parts : RequestHead) → IsRequestAt bytes.now head.now.headers head.now.spans parts → result ≡ plan_by parts }
    // A body that is to be read has at most 1,048,576 bytes.
    ensures bound { IsBounded result }
{
    make_plan(
        routes,
        head.spans.method.of(bytes),
        head.spans.path.of(bytes),
        bytes,
        &head.headers[..head.spans.headers],
    )
}

/// Reads what a connection asks: its head, of at most 8,192 bytes and 32 lines, and its body only if the head asks for one, of the
/// stated length, which is at most 1,048,576 bytes. Memory is taken as the bytes come, and not by the stated length. Read if the reader
/// fails; OutOfMemory if memory runs out.
pub fn read_request<R: Incoming>(
    alloc: Global,
    routes: &Routes,
    reader: &mut R,
) -> Result<Received, ReadFault>
    // What is answered is what the bytes of the connection ask, whichever follow those that were read. No more are read than are needed:
    // 8,192 at most, or none after the body; and after a head at most 1,023, or as many as its body has.
    ensures takes { IfOk result (Takes (R.remaining reader.old) (R.remaining reader.new)) }
    // After a fault the reader gave some bytes, no more than were needed.
    ensures breaks { OnErr result (StopsReading (R.remaining reader.old) (R.remaining reader.new)) }
    // Read is answered only if the reader failed.
    ensures cause { IfErr result (λ fault. fault ≡ ReadFault.Read → HasFailed R.fails reader.new) }
{
    let mut bytes = Vec::new(alloc);
    let head = match read_head(reader, &mut bytes)? {
        HeadRead::Empty => return Ok(Received::Nothing),
        HeadRead::Refused => {
            return Ok(Received::Request {
                is_head: false,
                asks_why: false,
                asked: Asked::refuse(Refusal::BadRequest),
            });
        }
        HeadRead::Whole(head) => head,
    };
    let is_head = is_head(&bytes, &head);
    let asks_why = asks_why(&bytes, &head);
    let plan = plan_head(routes, &bytes, &head);
    let asked = follow_plan(alloc, reader, &mut bytes, head.spans.len, plan)?;
    Ok(Received::Request {
        is_head,
        asks_why,
        asked,
    })
}
