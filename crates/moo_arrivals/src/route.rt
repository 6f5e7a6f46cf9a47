//! The routes that requests ask for.

use moo_http_request::Question;
use std::fmt::{self, Display, Formatter};

/// The route that a request asked for.
#[derive(Clone, Copy, Drop)]
pub enum Route {
    /// None: the request was refused, or wasn't read.
    Unknown,
    /// `/batch`: a batch is run.
    Batch,
    /// `/ask`: a batch is asked what it would answer.
    Ask,
    /// `/each`: calls are asked, each alone.
    Each,
    /// That of a question.
    Question(Question),
}

/// The path of the route, or `-` if it is unknown.
impl Display for Route {
    fn fmt<W: fmt::Write>(&self, f: &mut Formatter<W>) -> fmt::Result {
        match self {
            Route::Unknown => f.write_str("-"),
            Route::Batch => f.write_str("/batch"),
            Route::Ask => f.write_str("/ask"),
            Route::Each => f.write_str("/each"),
            Route::Question(question) => question.fmt(f),
        }
    }
}
