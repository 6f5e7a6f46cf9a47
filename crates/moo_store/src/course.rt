//! How far a text is answered.

ghost use Rattle.std.specs.Prelude.{◌≡◌};
ghost use Rattle.moo_store.specs.Stopping.{stops_after, says_accepted};

use crate::tally::Tally;
use moo_text::{Answer, Reply};

/// What is counted of a text, and whether it was answered only up to the first answer that isn't `accepted`.
#[derive(Clone, Copy)]
pub struct Course {
    pub tally: Tally,
    pub stopped: bool,
}

/// Whether a reply is `accepted`.
fn reply_says_accepted(reply: &Reply) -> bool
    ensures { result ≡ says_accepted (Answer.Replied reply.now) }
{
    match reply {
        Reply::Accepted { .. } => true,
        Reply::Refused { .. } | Reply::Full { .. } | Reply::Stale { .. } | Reply::NoMemory => false,
    }
}

/// Whether an answer is `accepted`.
fn says_accepted(answer: &Answer) -> bool
    ensures { result ≡ says_accepted answer.now }
{
    match answer {
        Answer::Replied(reply) => reply_says_accepted(reply),
        Answer::Malformed(_) | Answer::Truncated | Answer::Fault | Answer::Closed => false,
    }
}

/// Whether a text is answered no further after this answer: it is to stop at the first that isn't `accepted`, and this is one.
pub(crate) fn stops_after(stop: bool, answer: &Answer) -> bool
    ensures { result ≡ stops_after stop answer.now }
{
    stop && !says_accepted(answer)
}
