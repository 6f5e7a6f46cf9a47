//! Why connections fail.

use crate::route::Route;
use std::fmt::{self, Display, Formatter};

/// Why a request wasn't gathered to its end, or an answer wasn't taken to its end.
#[derive(Clone, Copy, Drop)]
pub enum Cause {
    /// Its peer broke off, or the system failed it.
    BrokenOff,
    /// Its peer was silent for too long.
    Silent,
    /// It took too long in all.
    Late,
    /// Another connection needed its place.
    Crowded,
    /// Memory ran out.
    OutOfMemory,
}

/// The words that say it.
impl Display for Cause {
    fn fmt<W: fmt::Write>(&self, f: &mut Formatter<W>) -> fmt::Result {
        f.write_str(match self {
            Cause::BrokenOff => "the peer broke off",
            Cause::Silent => "the peer was silent",
            Cause::Late => "it took too long",
            Cause::Crowded => "its place was needed",
            Cause::OutOfMemory => "out of memory",
        })
    }
}

/// A connection whose answer was lost after it was given back: what is told of it.
#[derive(Clone, Copy, Drop)]
pub struct Loss {
    /// The route that it asked for.
    pub route: Route,
    /// Why its answer was lost.
    pub cause: Cause,
}
