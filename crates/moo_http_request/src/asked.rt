//! What a request asks.

ghost use Rattle.std.specs.Prelude.{◌≡◌};

use crate::each::Each;
use crate::question::{Question, Topic};
use crate::refused::Refused;
use crate::routes::Endpoint;
use moo_world::Batch;

/// The method that a route has.
#[derive(Clone, Copy, Drop)]
pub enum Method {
    /// Of a route that answers a question.
    Get,
    /// Of a route to which batches or calls are sent.
    Post,
}

/// Why a request is refused before the World is asked.
#[derive(Clone, Copy, Drop)]
pub enum Refusal {
    /// No head within the limits, a body that is cut off, or no body of the shape.
    BadRequest,
    /// The head names a coding of the body, as of one in chunks.
    Coded,
    /// The head states the length of the body not once, or not by 1 to 10 digits.
    NoLength,
    /// A page of a browser sent it that isn't of this machine, by what the lines of the head say.
    Forbidden,
    /// The path has no route.
    NotFound,
    /// The path is about this topic, and has no number where the topic needs one.
    NoNumber(Topic),
    /// The route has another method than the request.
    NotAllowed(Endpoint),
    /// The stated length is over 1,048,576 bytes.
    TooLarge,
    /// The number, from 1, of the first text under `calls` that isn't a call.
    Malformed(u32),
}

/// Whether a batch is to be run, or only asked what it would answer.
#[derive(Clone, Copy, Drop)]
pub enum Mode {
    /// It is run, and committed if it is accepted.
    Run,
    /// It is only asked, and nothing changes.
    Ask,
}

/// What the calls of a body are.
#[derive(Clone, Copy, Drop)]
pub enum Form {
    /// One batch.
    Batch(Mode),
    /// Each call is a batch of its own, which is only asked.
    Each,
}

/// What a request asks.
#[derive(Drop)]
pub enum Asked {
    /// Nothing: it is refused.
    Refused(Refused),
    /// A batch.
    Calls(Mode, Batch),
    /// Calls, each of which is a batch that is only asked what it would answer.
    Each(Each),
    /// Something of the world, which stays as it is.
    Question(Question),
}

impl Asked {
    /// What a refused request asks: nothing. The refusal has this reason, and tells of nothing that is wrong with a body.
    pub(crate) fn refuse(refusal: Refusal) -> Asked
        ensures { result ≡ Asked.Refused refusal }
    {
        Asked::Refused(Refused::new(refusal, None))
    }
}
