//! The notes on a connection.

ghost use Rattle.std.specs.Prelude.{◌≡◌, ◌≢◌, IfSome, IfNone, is_ok, true};
ghost use Rattle.moo_http_request.specs.declared.asked.Refusal.{Refusal};
ghost use Rattle.moo_http_response.specs.Responses.{response_of, reply_response};

use crate::fault::ServeFault;
use moo_arrivals::{Cause, Closing, Loss, Route};
use moo_http_request::{Asked, Mode};
use moo_http_response::RequestOutcome;
use moo_text::Reply;
use std::fmt::{self, Display, Formatter};

/// Why a connection failed, or was answered 503.
#[derive(Clone, Copy, Drop)]
pub enum Trouble {
    /// It can't be taken from its source.
    NotTaken,
    /// Its waits aren't limited, so that it isn't read.
    NotLimited,
    /// The request wasn't gathered to its end.
    Read(Cause),
    /// The answer can't be held until it is sent.
    Write,
    /// The answer wasn't taken to its end.
    Lost(Cause),
    /// Memory ran out, and it has no answer.
    OutOfMemory,
    /// It was answered 503: the World had failed before.
    Closed,
    /// It was answered 503: the store failed.
    Store,
    /// It was answered 503: memory or ticks ran out.
    NoMemory,
}

/// The words that the log has for it.
impl Display for Trouble {
    fn fmt<W: fmt::Write>(&self, f: &mut Formatter<W>) -> fmt::Result {
        let text = match self {
            Trouble::NotTaken => "failed: the connection can't be taken",
            Trouble::NotLimited => "failed: the waits of the connection can't be limited",
            Trouble::Read(cause) => return write!(f, "failed: waiting for the request: {cause}"),
            Trouble::Write => "failed: the answer can't be written",
            Trouble::Lost(cause) => {
                return write!(f, "failed: waiting for the answer to be taken: {cause}");
            }
            Trouble::OutOfMemory => "failed: out of memory",
            Trouble::Closed => "503: the store failed before, and the world is closed",
            Trouble::Store => "503: the store failed",
            Trouble::NoMemory => "503: out of memory",
        };
        f.write_str(text)
    }
}

/// Why a connection failed, by the fault of serving it. `cause` is why its request can't be read, if that is the fault.
fn trouble_of_fault(fault: ServeFault, cause: Cause) -> Trouble {
    match fault {
        ServeFault::Read => Trouble::Read(cause),
        ServeFault::Write => Trouble::Write,
        ServeFault::OutOfMemory => Trouble::OutOfMemory,
    }
}

/// The notes on a connection while it is served: what is told of it, and how it is to be closed.
#[derive(Clone, Copy, Drop)]
pub struct Note {
    pub route: Route,
    /// None if the connection was answered, and not by 503.
    pub trouble: Option<Trouble>,
    pub closing: Closing,
    /// Why it fails, if its request can't be read to its end.
    pub cause: Cause,
}

/// The route that a batch is sent to.
fn route_of_batch(mode: Mode) -> Route {
    match mode {
        Mode::Run => Route::Batch,
        Mode::Ask => Route::Ask,
    }
}

/// The route that a request asked for, or Unknown if it was refused.
fn route_of(asked: &Asked) -> Route {
    match asked {
        Asked::Refused(_) => Route::Unknown,
        Asked::Calls(mode, _) => route_of_batch(*mode),
        Asked::Each(_) => Route::Each,
        Asked::Question(question) => Route::Question(*question),
    }
}

/// How a connection is closed after its answer: gently after a refusal, which may leave a part of the request unread, else only if bytes
/// came beyond it.
fn closing_after(asked: &Asked) -> Closing
    ensures { (refusal : Refusal) → asked.now ≡ Asked.Refused refusal → result ≡ Closing.Gently }
{
    match asked {
        Asked::Refused(_) => Closing::Gently,
        _ => Closing::IfMoreCame,
    }
}

/// Why a batch with this reply is answered 503, or None if it has another status.
fn trouble_of_reply(reply: &Reply) -> Option<Trouble>
    ensures some { IfSome result (λ _. (reply_response reply.now).status ≡ 503) }
    ensures none { IfNone result ((reply_response reply.now).status ≢ 503) }
{
    match reply {
        Reply::NoMemory => Some(Trouble::NoMemory),
        _ => None,
    }
}

/// Why a request with this outcome is answered 503, or None if it has another status.
fn trouble_of(outcome: &RequestOutcome) -> Option<Trouble>
    ensures some { IfSome result (λ _. (response_of outcome.now).status ≡ 503) }
    ensures none { IfNone result ((response_of outcome.now).status ≢ 503) }
{
    match outcome {
        RequestOutcome::Closed => Some(Trouble::Closed),
        RequestOutcome::Fault => Some(Trouble::Store),
        RequestOutcome::NoMemory => Some(Trouble::NoMemory),
        RequestOutcome::Replied(reply) => trouble_of_reply(reply),
        _ => None,
    }
}

impl Note {
    /// The note on a connection of which nothing is known yet.
    pub fn new() -> Note {
        Note {
            route: Route::Unknown,
            trouble: None,
            closing: Closing::AtOnce,
            cause: Cause::BrokenOff,
        }
    }

    /// The note on a connection whose answer was lost after its turn.
    pub(crate) fn of_loss(loss: Loss) -> Note {
        Note {
            route: loss.route,
            trouble: Some(Trouble::Lost(loss.cause)),
            closing: Closing::AtOnce,
            cause: loss.cause,
        }
    }

    /// Notes the route that is asked for, and how the connection is to be closed after its answer.
    pub(crate) fn asks(&mut self, asked: &Asked)
        ensures { (refusal : Refusal) → asked.now ≡ Asked.Refused refusal → self.new.closing ≡ Closing.Gently }
    {
        self.route = route_of(asked);
        self.closing = closing_after(asked);
    }

    /// Notes why what was asked is answered 503, if it is.
    pub(crate) fn comes_to(&mut self, outcome: &RequestOutcome)
        ensures { self.new.closing ≡ self.old.closing }
    {
        self.trouble = trouble_of(outcome);
    }

    /// Notes that the connection failed, and is to be closed at once. A trouble that was noted before stays, as that the store failed.
    pub(crate) fn fails(&mut self, trouble: Trouble) {
        if self.trouble.is_none() {
            self.trouble = Some(trouble);
        }
        self.closing = Closing::AtOnce;
    }

    /// Notes the fault that serving the connection ended with, if it met one; whether it was answered.
    pub(crate) fn ends(&mut self, served: Result<(), ServeFault>) -> bool
        ensures answered { result ≡ is_ok served }
        ensures closing { result ≡ true → self.new.closing ≡ self.old.closing }
    {
        match served {
            Ok(()) => true,
            Err(fault) => {
                self.fails(trouble_of_fault(fault, self.cause));
                false
            }
        }
    }
}
