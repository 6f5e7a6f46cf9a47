//! What a run has beside its words and their file.

ghost use Rattle.std.specs.Prelude.{◌≡◌, MatchResult};
ghost use Rattle.moo_run.specs.Given.{Run, given_to};
ghost use Rattle.moo_run_lines.specs.Lines.{Reports};

use crate::host::{Advice, BatchFiles};
use moo_files::WorldFiles;
use moo_http::Ports;
use moo_run_lines::{Failure, put_failure, report};
use sqlite::{Error, ErrorCode, Start};
use sqlite_disk::Disk;
use std::alloc::Global;
use std::io::{Eprint, Read, Write};
use std::time::Clock;

/// The types of what a run works with.
///
/// `File` is the type of a *start*: the permission to open one pair of files. The type says what they hold (the image). A start is spent by
/// opening them.
pub trait Streams {
    type File: Start;

    type Host: WorldFiles<Self::File> + BatchFiles + Ports + Advice;

    type Console: Clock + Eprint;

    type Input: Read + Drop;

    type Output: Write;
}

/// What a run has: its host, with files and ports, the standard streams, and its status so far.
#[derive(Drop)]
pub struct Session<'s, S: Streams> {
    pub alloc: Global,
    pub console: &'s S::Console,
    pub host: S::Host,
    pub input: S::Input,
    pub output: S::Output,
    pub status: u8,
}

/// Whether the host may be able to explain a failure of opening: the file can't be opened, or read as a database.
fn may_be_explained(failure: Failure) -> bool {
    matches!(
        failure,
        Failure::Store(Error::SqliteFailure(ErrorCode::CannotOpen | ErrorCode::DatabaseCorrupt))
    )
}

impl<'s, S: Streams> Session<'s, S> {
    /// Writes the line of a failure, and sets its status.
    pub(crate) fn fail(&mut self, failure: Failure)
        ensures reports { Reports failure (S.Output.contents self.old.output) (S.Output.contents self.new.output) self.new.status }
        ensures host { self.new.host ≡ self.old.host }
        // Nothing is read of the input.
        ensures input { self.new.input ≡ self.old.input }
    {
        self.status = report(self.alloc, self.console, failure, &mut self.output);
    }

    /// Writes the line of a file that can't be opened, and sets its status. If the host knows why it can't, the host says so on standard
    /// error in place of the store.
    pub(crate) fn fail_to_open(&mut self, file: &str, failure: Failure)
        ensures reports { Reports failure (S.Output.contents self.old.output) (S.Output.contents self.new.output) self.new.status }
        ensures host { self.new.host ≡ self.old.host }
        // Nothing is read of the input.
        ensures input { self.new.input ≡ self.old.input }
    {
        if may_be_explained(failure) && self.host.explains(file) {
            self.status = put_failure(self.alloc, failure, &mut self.output);
        } else {
            self.fail(failure);
        }
    }

    /// Sets the status of a task that is done; or writes the line of its failure, and sets the status of that.
    pub(crate) fn finish(&mut self, done: Result<u8, Failure>)
        // A task that is done writes no line here.
        ensures reports { MatchResult done
            (λ status. (self.new.status ≡ status) × (S.Output.contents self.new.output ≡ S.Output.contents self.old.output))
            (λ failure. Reports failure (S.Output.contents self.old.output) (S.Output.contents self.new.output) self.new.status) }
        ensures host { self.new.host ≡ self.old.host }
        // Nothing is read of the input.
        ensures input { self.new.input ≡ self.old.input }
    {
        match done {
            Ok(status) => self.status = status,
            Err(failure) => self.fail(failure),
        }
    }
}

/// What a run is given and writes, from what its session was to what it is. `File` is what the file of its words holds, and `Disk` the disk
/// that the file is on.
pub trait HasRun {
    type File;

    type Disk: Disk;

    ghost run: { Self → Self → Run };
}

impl<'s, S: Streams> HasRun for Session<'s, S> {
    type File = S::File;

    type Disk = <S::Host as WorldFiles<S::File>>::Disk;

    ghost run = { λ old new. record {
      given = given_to S.Input.Read S.Host.BatchFiles S.Host.WorldFiles.denies S.Host.Ports S.Host.Source.Arrivals
          S.Host.Source.Reader.Read S.Host.Source.Reader.fails S.Host.Source.Writer.Write old.input old.host new.host;
      before = S.Output.contents old.output;
      after = S.Output.contents new.output;
      status = new.status;
    } };
}
