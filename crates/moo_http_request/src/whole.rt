//! How many bytes a request has.

ghost use Rattle.std.specs.Prelude.{◌≡◌, ◌≤◌, ◌<◌, ℕ, length};
ghost use Rattle.moo_http_request.specs.{Plan.{body_size}, Whole.{ShowsEnd}, declared.whole.Wanted.TheVariants.{Total}};

use crate::head::{HeadRead, MAX_HEAD, parse_head};
use crate::plan::Plan;
use crate::request::plan_head;
use crate::routes::Routes;

/// What a request still wants, by its first bytes.
#[derive(Clone, Copy, PartialEq, Eq, Drop)]
pub enum Wanted {
    /// The rest of its head.
    Head,
    /// So many bytes in all.
    Total(usize),
}

/// How many bytes the body has that a plan reads: 0 if it reads none.
fn body_size(plan: &Plan) -> u64
    ensures { result ≡ body_size plan.now }
{
    match plan {
        Plan::Decided(_) => 0,
        Plan::Body(_, size) => *size,
    }
}

/// What a request wants that begins with these bytes, of which there are 1 to 8,192. `Head` if no head ends in them and it may still
/// come. Else how many bytes the request has in all, up to 1,056,768, the most of a head and of a body: with so many it is whole, and
/// more bytes change nothing of what is asked; with fewer it is cut off.
pub fn bytes_wanted(routes: &Routes, bytes: &[u8]) -> Wanted
    // There are 1 to 8,192 bytes.
    requires { (0 < length bytes.now) × (length bytes.now ≤ MAX_HEAD) }
    // The bytes show that no head ends in them yet, or that the request is whole from so many bytes on, and cut off before.
    ensures shows { ShowsEnd bytes.now result }
    // No request wants more than the longest head and the longest body.
    ensures bound { (n : ℕ) → result ≡ Total n → n ≤ 1056768 }
{
    match parse_head(bytes) {
        Some(HeadRead::Whole(head)) => {
            let plan = plan_head(routes, bytes, &head);
            Wanted::Total(head.spans.len + body_size(&plan) as usize)
        }
        Some(_) => Wanted::Total(bytes.len()),
        None if bytes.len() == MAX_HEAD => Wanted::Total(MAX_HEAD),
        None => Wanted::Head,
    }
}
