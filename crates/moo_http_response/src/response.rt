//! Responses as bytes.

ghost use Rattle.std.specs.Prelude.{◌≡◌, ◌++◌, [], IfOk, option_map, string_bytes, length, unwrap_or, if◌then◌else◌};
ghost use Rattle.http.specs.StatusCode.{reason_phrase};
ghost use Rattle.moo_http_response.specs.Bytes.{allow_line, head_text};

use http::StatusCode;
use std::alloc::{AllocError, Global};

/// An answer: its status, the method of the route if another was asked, and its body with its kind.
#[derive(Drop)]
pub(crate) struct Response {
    pub status: StatusCode,
    pub allow: Option<&'static str>,
    pub kind: &'static str,
    pub body: Vec<u8>,
}

/// The phrase of a status, or no text if it has none.
fn reason(status: StatusCode) -> &'static str
    ensures { result.now ≡ unwrap_or (reason_phrase status) [] }
{
    match status.canonical_reason() {
        Some(reason) => reason,
        None => "",
    }
}

/// The line that names the method of the route, or nothing. The only error is a lack of memory.
fn allow_line(alloc: Global, allow: Option<&str>) -> Result<String, AllocError>
    ensures { IfOk result (λ line. string_bytes line ≡ allow_line (option_map (λ method. method.now) allow.entry)) }
{
    match allow {
        Some(method) => ["allow: ", method, "\r\n"].concat(alloc),
        None => Ok(String::new(alloc)),
    }
}

/// The head of a response: its lines, with the size of its body in bytes, and the empty line. AllocError if memory runs out.
fn print_head(
    alloc: Global,
    status: StatusCode,
    kind: &'static str,
    allow: Option<&str>,
    size: usize,
) -> Result<String, AllocError>
    ensures { IfOk result (λ text. string_bytes text ≡ head_text status kind.now (option_map (λ method. method.now) allow.entry) size) }
{
    let code = status.as_u16().to_string(alloc)?;
    let length = size.to_string(alloc)?;
    let allow = allow_line(alloc, allow)?;
    [
        "HTTP/1.1 ",
        code.as_str(),
        " ",
        reason(status),
        "\r\ncontent-type: ",
        kind,
        "\r\ncontent-length: ",
        length.as_str(),
        "\r\nconnection: close\r\n",
        allow.as_str(),
        "\r\n",
    ]
    .concat(alloc)
}

/// A body with its head before it. The body isn't copied if its memory has room for the head. AllocError if memory runs out.
fn after_head(bytes: Vec<u8>, head: &[u8]) -> Result<Vec<u8>, AllocError>
    ensures { IfOk result (λ whole. whole.items ≡ head.now ++ bytes.items) }
{
    let mut whole = bytes;
    whole.extend_from_slice(head)?;
    whole.rotate_right(head.len());
    Ok(whole)
}

/// The bytes of a response: its head and its body, and to HEAD the head alone. AllocError if memory runs out.
pub(crate) fn print_response(
    alloc: Global,
    response: Response,
    is_head: bool,
) -> Result<Vec<u8>, AllocError>
    ensures { IfOk result (λ bytes. bytes.items ≡
        head_text response.status response.kind.now (option_map (λ method. method.now) response.allow) (length response.body.items)
        ++ (if is_head then [] else response.body.items)) }
{
    let head = print_head(
        alloc,
        response.status,
        response.kind,
        response.allow,
        response.body.len(),
    )?;
    if is_head {
        return Ok(head.into_bytes());
    }
    after_head(response.body, head.as_bytes())
}
