//! The head of a request, read in pieces.

ghost use Rattle.std.specs.{Prelude.{◌≡◌, ◌≤◌, ◌<◌, [], length, None, IfOk, OnOk, IfErr, OnErr, IfSome}, Io.KnownBytes.{Consumes}};
ghost use Rattle.httparse.specs.Grammar.{HasNoRequest};
ghost use Rattle.moo_http_request.specs.{Found.{FindsHead, ShowsHead, IsClose}, Given.{HasFailed, TakesAtMost}};

use crate::fault::ReadFault;
use crate::incoming::Incoming;
use crate::input::read_more;
use httparse::Status;
use httparse::spans::{EMPTY_HEADER_SPAN, HeaderSpan, RequestSpans, parse_request};

/// How many bytes a head has at the most.
pub const MAX_HEAD: usize = 8192;

/// How many lines a head has at the most.
pub const MAX_LINES: usize = 32;

/// The places of the parts of a head in the bytes.
#[derive(Clone, Copy, Drop)]
pub struct HeadSpans {
    pub spans: RequestSpans,
    pub headers: [HeaderSpan; MAX_LINES],
}

/// What the input begins with.
#[derive(Drop)]
pub enum HeadRead {
    /// A head within the limits.
    Whole(HeadSpans),
    /// No head within the limits.
    Refused,
    /// Nothing: the input is empty.
    Empty,
}

/// What the bytes say of the head, whichever bytes follow. `None` if the head may go on after them.
pub(crate) fn parse_head(bytes: &[u8]) -> Option<HeadRead>
    requires { (0 < length bytes.now) × (length bytes.now ≤ MAX_HEAD) }
    ensures found { IfSome result (ShowsHead bytes.now) }
    // While more of the head may come, the bytes begin with none.
    ensures partial { result ≡ None → HasNoRequest bytes.now }
{
    let mut headers = [EMPTY_HEADER_SPAN; MAX_LINES];
    match parse_request(bytes, &mut headers) {
        Ok(Status::Complete(spans)) => Some(HeadRead::Whole(HeadSpans { spans, headers })),
        Ok(Status::Partial) => None,
        Err(_) => Some(HeadRead::Refused),
    }
}

/// Reads the head of a request, of at most 8,192 bytes and 32 lines, in pieces of up to 1,024 bytes. It reads no more pieces once the head
/// is whole. Read if the reader fails; OutOfMemory if memory runs out.
pub(crate) fn read_head<R: Incoming>(
    reader: &mut R,
    bytes: &mut Vec<u8>,
) -> Result<HeadRead, ReadFault>
    requires { bytes.old.items ≡ [] }
    // The bytes are those that the reader gave.
    ensures takes { OnOk result (Consumes (R.remaining reader.old) (R.remaining reader.new) bytes.new.items) }
    // If a head is found, it is at their front; if it is refused, they begin with no head, whichever follow; if it is empty, none came.
    ensures head { IfOk result (FindsHead (R.remaining reader.new) bytes.new.items) }
    ensures few { OnOk result (length bytes.new.items ≤ MAX_HEAD) }
    // Less than 1,024 bytes were read after a head.
    ensures close { IfOk result (IsClose bytes.new.items) }
    // After a fault the reader gave at most 8,192 bytes.
    ensures breaks { OnErr result (TakesAtMost MAX_HEAD (R.remaining reader.old) (R.remaining reader.new)) }
    // Read is answered only if the reader failed.
    ensures cause { IfErr result (λ fault. fault ≡ ReadFault.Read → HasFailed R.fails reader.new) }
{
    if !read_more(reader, bytes, MAX_HEAD)? {
        return Ok(HeadRead::Empty);
    }
    'pieces: loop {
        if let Some(read) = parse_head(bytes) {
            return Ok(read);
        }
        if bytes.len() == MAX_HEAD {
            return Ok(HeadRead::Refused);
        }
        if !read_more(reader, bytes, MAX_HEAD)? {
            return Ok(HeadRead::Refused);
        }
    }
}
