//! What is wrong with a body, for people to read.

use std::fmt::{self, Display, Formatter};

/// Why a body that is whole has no shape: the first check that fails.
#[derive(Clone, Copy, Drop)]
pub enum ShapeFault {
    NotJson,
    NotAnObject,
    NoProgrammer,
    ProgrammerNoText,
    ProgrammerNoObject,
    NoCalls,
    CallsNoArray,
    CallNoText,
    NoNumber,
    ManyCalls,
    LongCall,
}

/// The sentence that says it.
impl Display for ShapeFault {
    fn fmt<W: fmt::Write>(&self, f: &mut Formatter<W>) -> fmt::Result {
        f.write_str(match self {
            ShapeFault::NotJson => "the body isn't JSON",
            ShapeFault::NotAnObject => "the body isn't an object of JSON",
            ShapeFault::NoProgrammer => "the body has no key as",
            ShapeFault::ProgrammerNoText => "the value of as isn't a string",
            ShapeFault::ProgrammerNoObject => "the value of as isn't an object, as #3 is one",
            ShapeFault::NoCalls => "the body has no key calls",
            ShapeFault::CallsNoArray => "the value of calls isn't an array",
            ShapeFault::CallNoText => "the value of calls has an entry that isn't a string",
            ShapeFault::NoNumber => {
                "the value of at is neither null nor a number from 0 to 9223372036854775807"
            }
            ShapeFault::ManyCalls => "calls has over 1,000 calls",
            ShapeFault::LongCall => "a call has over 262,144 bytes",
        })
    }
}

/// What is wrong with a body that is whole.
#[derive(Drop)]
pub enum BodyFault {
    /// It isn't JSON, or has another shape.
    Shape(ShapeFault),
    /// This text under `calls` isn't a call.
    Call(String),
}
