//! The bytes of an answer.

ghost use Rattle.std.specs.Prelude.{◌≡◌, IfOk};
ghost use Rattle.moo_http_response.specs.{Responses.{response_with, response_text}, Whys.{whys_shown}};

use crate::outcome::RequestOutcome;
use crate::respond::respond;
use crate::response::print_response;
use std::alloc::{AllocError, Global};

/// The bytes of the answer to what came of a request: its head and its body, and to HEAD the head alone. If a body, a batch or a call alone
/// is refused, and it is told why, the key `why` says it: of calls alone each has the sentence in its place of `whys`, else it is the
/// first. If the head is refused, `why` has a sentence about that if the request asks. `AllocError` if memory is refused.
pub fn answer_text(
    alloc: Global,
    outcome: RequestOutcome,
    asks_why: bool,
    whys: &[Option<String>],
    is_head: bool,
) -> Result<Vec<u8>, AllocError>
    ensures { IfOk result (λ bytes. bytes.items ≡ response_text is_head (response_with asks_why (whys_shown whys.now) outcome)) }
{
    let response = respond(alloc, outcome, asks_why, whys)?;
    print_response(alloc, response, is_head)
}
