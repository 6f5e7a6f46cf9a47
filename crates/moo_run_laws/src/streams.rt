//! What a run works with that comes to a stop.

ghost use Rattle.std.specs.Prelude.{◌≡◌};

use crate::host::{Halt, HaltingHost};
use crate::output::HaltingOutput;
use moo_run::{Session, Streams};
use std::marker::PhantomData;

/// The types of what a run works with that comes to a stop. `S` has the types of the run that doesn't.
pub struct HaltingStreams<S> {
    of: PhantomData<S>,
}

impl<S: Streams> Streams for HaltingStreams<S> {
    type File = S::File;

    type Host = HaltingHost<S::Host>;

    type Console = S::Console;

    type Input = S::Input;

    type Output = HaltingOutput<S::Output>;
}

/// A session with a host and an output that come to a stop once what is granted is used up; else it is the session that was given.
pub fn halting<'s, S: Streams>(
    session: Session<'s, S>,
    halt: Halt,
) -> Session<'s, HaltingStreams<S>>
    // The host is the one given, with what it may still do.
    ensures host { result.host ≡ record { inner = session.entry.host; halt = halt } }
    // The output is the one given, and takes so many bytes.
    ensures output { result.output ≡ record { inner = session.entry.output; bytes_left = halt.bytes } }
    ensures input { result.input ≡ session.entry.input }
{
    Session {
        alloc: session.alloc,
        console: session.console,
        host: HaltingHost::new(session.host, halt),
        input: session.input,
        output: HaltingOutput::new(session.output, halt.bytes),
        status: session.status,
    }
}
