//! What the words of the command line do.

ghost use Rattle.std.specs.Prelude.{◌≡◌, ℕ, List, map};
ghost use Rattle.clap.specs.Kinds.{HasKind};
ghost use Rattle.moo_cli.specs.{declared.task.Task.{Task}, Tasks.{NamesTask, IsRefusal, mistakes}};
ghost use Rattle.sqlite.specs.WalFiles.{image_at};
ghost use Rattle.moo_run.specs.{Run.{mistake_status, EndsUsage, ReadsFile, KeepsInput, RunsWords}, Ends.{RunsOver, RunsClosed}};

use crate::ends::Ends;
use crate::files::run_task;
use crate::session::{HasRun, Session, Streams};
use clap::error::ErrorKind;
use moo_cli::{Usage, read_words};
use moo_files::{Remains, WorldFiles};
use moo_run_lines::{Failure, put_line};

/// The exit status for what clap, which reads the words, gives as an error: 0 if it is help or the version, which clap gives as errors too,
/// and 2 if it is a mistake in the words. A lack of memory never comes here: `put_mistake` tells it.
fn mistake_status(kind: ErrorKind) -> u8
    ensures { result ≡ mistake_status kind }
{
    match kind {
        ErrorKind::DisplayHelp | ErrorKind::DisplayVersion => 0,
        _ => 2,
    }
}

/// Writes what the reader of the words says of their mistake, and sets its status: 0 for help and the version, 2 for a mistake. The status
/// is 1 if the writer fails, and 4 if memory ran out.
fn put_mistake<'s, S: Streams>(session: &mut Session<'s, S>, error: &clap::Error)
    // If the words have this mistake, what their reader says of it is written, with its status; or a line says that memory ran out.
    ensures usage { (words : List (List ℕ)) → HasKind (mistakes words) error.now →
        EndsUsage words (S.Output.contents session.old.output) (S.Output.contents session.new.output) session.new.status }
    // The host, with its files and its ports, is as it was.
    ensures host { session.new.host ≡ session.old.host }
    // Nothing is read of the input.
    ensures input { session.new.input ≡ session.old.input }
{
    let kind = error.kind();
    if kind == ErrorKind::OutOfMemory {
        return session.fail(Failure::OutOfMemory);
    }
    let Ok(text) = error.to_string(session.alloc) else {
        return session.fail(Failure::OutOfMemory);
    };
    session.status = put_line(text.as_str(), mistake_status(kind), &mut session.output);
}

/// Writes why the words name no task, and sets the status of that.
fn report_usage<'s, S: Streams>(session: &mut Session<'s, S>, usage: &Usage)
    // If the words are refused so, what is written and the status are those of words that have a mistake, or name no task.
    ensures usage { (words : List (List ℕ)) → IsRefusal words usage.now →
        EndsUsage words (S.Output.contents session.old.output) (S.Output.contents session.new.output) session.new.status }
    // The host, with its files and its ports, is as it was.
    ensures host { session.new.host ≡ session.old.host }
    // Nothing is read of the input.
    ensures input { session.new.input ≡ session.old.input }
{
    match usage {
        Usage::Refused(error) => put_mistake(session, error),
        Usage::Absent => session.fail(Failure::Usage),
    }
}

/// Does what the words say, which begin with `moo`, and sets the exit status: `init`, `load`, `apply`, `ask`, `dump`, `check` or
/// `serve` on a file, or on a new world in memory for `:memory:`. With no other word it is `apply :memory: -`.
///
/// What the command writes goes to the output, and after it the line of a failure. The status is 1 if the store, the reader or the writer
/// failed, the text is too long, the port can't be listened on, or an answer is `fault` or `closed`; 3 if the file is damaged or of a newer
/// version, or a dump shows no world; 4 if memory ran out. Words that name no task give the text of their reader: 2, or 0 for help and the
/// version. If the store, the batches, the dump or the port failed, the cause goes to standard error, and so does a hint if a batch met a
/// fault of the store. If a batch isn't accepted, standard error says its line and why. A connection that fails isn't a failure of `serve`.
///
/// `S::File` is what the file of the words holds, and `S::Host` the host, with its files and its ports: the run is proved for all contents
/// and all connections, and no code looks at them. A run looks at and opens no file of a world but that of the words, and reads no file of
/// batches and no dump but theirs. What is left of the file is handed back, to be closed. If the words name no file, that is `start`, which
/// is spent only by opening one.
pub fn run_words<'s, S: Streams>(
    session: &mut Session<'s, S>,
    words: &[&str],
    start: S::File,
) -> Ends<S::File, <S::Host as WorldFiles<S::File>>::Disk>
    // The file of a world that the words name may be looked at and opened.
    requires may { (task : Task) → NamesTask (map (λ word. word.now) words.now) task →
        S.Host.may_open session.old.host task.file.now }
    // The file of batches or the dump that the words name may be read.
    requires read { (task : Task) (path : List ℕ) → NamesTask (map (λ word. word.now) words.now) task → ReadsFile task path →
        S.Host.may_read session.old.host path }
    // Whatever the file holds: the task that the words name runs, from a new world or from the one that was found; or no world is made or
    // found, and a line tells why; or the words have a mistake, which is told.
    ensures words { RunsWords (map (λ word. word.now) words.now) (⟦<Session<'s, S> as HasRun>⟧.run session.old session.new) }
    // By what the file holds: the run is one over the world that its tables show, or over a new one; or the file is refused, and nothing
    // that it held is lost, if the disk returned what was written; or the words have a mistake.
    ensures over { RunsOver (map (λ word. word.now) words.now) (image_at S.File.Start) result
        (⟦<Session<'s, S> as HasRun>⟧.run session.old session.new) }
    // The input is as it was, unless the words name a task that reads it.
    ensures input { KeepsInput (map (λ word. word.now) words.now) session.old.input session.new.input }
{
    match read_words(session.alloc, words) {
        Ok(task) => run_task(session, task, start),
        Err(usage) => {
            report_usage(session, &usage);
            Ends::NoFile(start)
        }
    }
}

/// `run_words`, and then the file is closed. It holds all that was committed, and its log FILE-wal beside it is short. If closing fails,
/// and after a kill, a part of what was committed is in the log alone; the next open reads it, and the status is the same.
///
/// What is left of the file is handed back, to be dropped. If the words name no file, that is the unspent start.
pub fn run_to_end<'s, S: Streams>(
    session: &mut Session<'s, S>,
    words: &[&str],
    start: S::File,
) -> Remains<S::File, <S::Host as WorldFiles<S::File>>::Disk>
    // The file of a world that the words name may be looked at and opened.
    requires may { (task : Task) → NamesTask (map (λ word. word.now) words.now) task →
        S.Host.may_open session.old.host task.file.now }
    // The file of batches or the dump that the words name may be read.
    requires read { (task : Task) (path : List ℕ) → NamesTask (map (λ word. word.now) words.now) task → ReadsFile task path →
        S.Host.may_read session.old.host path }
    // Whatever the file holds: the task that the words name runs, from a new world or from the one that was found; or no world is made or
    // found, and a line tells why; or the words have a mistake, which is told.
    ensures words { RunsWords (map (λ word. word.now) words.now) (⟦<Session<'s, S> as HasRun>⟧.run session.old session.new) }
    // The words ran over what the file held, as the clause `over` of `run_words` says, and then the file was closed.
    ensures closed { RunsClosed (map (λ word. word.now) words.now) (image_at S.File.Start) result
        (⟦<Session<'s, S> as HasRun>⟧.run session.old session.new) }
    // The input is as it was, unless the words name a task that reads it.
    ensures input { KeepsInput (map (λ word. word.now) words.now) session.old.input session.new.input }
{
    run_words(session, words, start).close()
}
