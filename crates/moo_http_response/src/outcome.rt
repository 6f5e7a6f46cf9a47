//! What came of a request.

use crate::replies::Replies;
use crate::told::Told;
use moo_http_request::Refusal;
use moo_text::Reply;

/// What came of a request. The forms that refuse it come first.
#[derive(Drop)]
pub enum RequestOutcome {
    /// It was refused before the World was asked.
    Refused(Refusal),
    /// The World had failed before.
    Closed,
    /// The store failed.
    Fault,
    /// Memory ran out, and nothing changed.
    NoMemory,
    /// What its batch was answered.
    Replied(Reply),
    /// What its calls were answered, each alone, and the number of accepted batches.
    Each(Replies, u64),
    /// What its question was told.
    Told(Told),
}
