//! The law of the program: words over a file, and words over what is found of it then.

ghost use Rattle.std.specs.Prelude.{ℕ, List, map};
ghost use Rattle.sqlite.specs.WalFiles.{image_at};
ghost use Rattle.moo_cli.specs.{declared.task.Task.{Task}, Tasks.{NamesTask}};
ghost use Rattle.moo_run.specs.Run.{ReadsFile};
ghost use Rattle.moo_run_laws.specs.Twice.{RunsTwice, StopsAndRuns};

use crate::law::runs_lead_on;
use moo_files::{Remains, WorldFiles};
use moo_run::{Ends, HasRun, Session, Streams, run_to_end, run_words};

/// Runs words over a file as the program does, by `run_to_end`, and then other words over what is found of the file.
///
/// The program runs over a file, and stops at the end of its words, before the file is closed or after that. (If it never gets to close it,
/// `stop_and_run_again` supposes less of the disk.) It runs again over what is then found: it goes on from a moment that the first run may
/// leave. Any words, with any input, over any host. Both disks return what was written, and may fail from any call on. What is found is any
/// log and file from which a database is read that a crash may leave, or any bytes of the two that the disk may leave.
pub fn run_and_run_again<'s, 'n, S: Streams, N: Streams>(
    session: &mut Session<'s, S>,
    words: &[&str],
    start: S::File,
    next: &mut Session<'n, N>,
    next_words: &[&str],
    next_start: N::File,
) -> (
    Remains<S::File, <S::Host as WorldFiles<S::File>>::Disk>,
    Remains<N::File, <N::Host as WorldFiles<N::File>>::Disk>,
)
    // The world's file that the first words name may be looked at and opened.
    requires may { (task : Task) → NamesTask (map (λ word. word.now) words.now) task →
        S.Host.may_open session.old.host task.file.now }
    // The file of batches or the dump that the first words name may be read.
    requires read { (task : Task) (path : List ℕ) → NamesTask (map (λ word. word.now) words.now) task → ReadsFile task path →
        S.Host.may_read session.old.host path }
    // The world's file that the next words name may be looked at and opened.
    requires next_may { (task : Task) → NamesTask (map (λ word. word.now) next_words.now) task →
        N.Host.may_open next.old.host task.file.now }
    // The file of batches or the dump that the next words name may be read.
    requires next_read { (task : Task) (path : List ℕ) → NamesTask (map (λ word. word.now) next_words.now) task →
        ReadsFile task path → N.Host.may_read next.old.host path }
    // A run that opened or made no world of its file tells why (`TellsEnd`), and each closes its file. If the disk of the first returned
    // what was written, the second goes on where the first left off: from the moment after the accepted batches whose answers were written,
    // or after these and one more. If its words take up the file (not `init`, `load` or `:memory:`), it runs from there, or fails for a
    // cause and tells no damage. The first run started from the moment that its file held, or from a new world. If it ran no task over the
    // file, the second goes on from what the file held, or, of version 1, from some moment of the same rows. What stays keeps its number
    // and its cells, and no number is given again. After a service everything counts that its connections asked, also if the answer
    // couldn't be sent. `FileRuns` has the words for this: `HandsOver` says it of two runs, by `GoesTo` of the first and `GoesOnFrom` of
    // the second. The first record is the first run, the second the next one: the words, what the files held, the session before and after,
    // how the words ended, and what was left once the file was closed. How they ended isn't handed out: there is an `ends` that fits.
    ensures again { RunsTwice ⟦<Session<'s, S> as HasRun>⟧ ⟦<Session<'n, N> as HasRun>⟧
        (λ ends. record {
          words = map (λ word. word.now) words.now;
          image = image_at S.File.Start;
          began = session.old;
          ended = session.new;
          ends = ends;
          closed = result.0;
        })
        (λ ends. record {
          words = map (λ word. word.now) next_words.now;
          image = image_at N.File.Start;
          began = next.old;
          ended = next.new;
          ends = ends;
          closed = result.1;
        }) }
{
    runs_lead_on::<Session<'s, S>, Session<'n, N>>();
    let left = run_to_end(session, words, start);
    let next_left = run_to_end(next, next_words, next_start);
    (left, next_left)
}

/// As `run_and_run_again`, if the process stops once the first words are done, before their file is closed. For what a crash leaves, the
/// disk has to return what was written until the crash; for the bytes that it leaves, until the file would be closed. What the first run
/// tells as it ends, `run_words` says.
pub fn stop_and_run_again<'s, 'n, S: Streams, N: Streams>(
    session: &mut Session<'s, S>,
    words: &[&str],
    start: S::File,
    next: &mut Session<'n, N>,
    next_words: &[&str],
    next_start: N::File,
) -> (
    Ends<S::File, <S::Host as WorldFiles<S::File>>::Disk>,
    Remains<N::File, <N::Host as WorldFiles<N::File>>::Disk>,
)
    // The world's file that the first words name may be looked at and opened.
    requires may { (task : Task) → NamesTask (map (λ word. word.now) words.now) task →
        S.Host.may_open session.old.host task.file.now }
    // The file of batches or the dump that the first words name may be read.
    requires read { (task : Task) (path : List ℕ) → NamesTask (map (λ word. word.now) words.now) task → ReadsFile task path →
        S.Host.may_read session.old.host path }
    // The world's file that the next words name may be looked at and opened.
    requires next_may { (task : Task) → NamesTask (map (λ word. word.now) next_words.now) task →
        N.Host.may_open next.old.host task.file.now }
    // The file of batches or the dump that the next words name may be read.
    requires next_read { (task : Task) (path : List ℕ) → NamesTask (map (λ word. word.now) next_words.now) task →
        ReadsFile task path → N.Host.may_read next.old.host path }
    // The second run goes on where the first left off, whatever bytes the disk leaves of the two files, or a crash leaves of the database.
    ensures again { StopsAndRuns ⟦<Session<'s, S> as HasRun>⟧ ⟦<Session<'n, N> as HasRun>⟧
        (λ closed. record {
          words = map (λ word. word.now) words.now;
          image = image_at S.File.Start;
          began = session.old;
          ended = session.new;
          ends = result.0;
          closed = closed;
        })
        (λ ends. record {
          words = map (λ word. word.now) next_words.now;
          image = image_at N.File.Start;
          began = next.old;
          ended = next.new;
          ends = ends;
          closed = result.1;
        }) }
{
    runs_lead_on::<Session<'s, S>, Session<'n, N>>();
    let ends = run_words(session, words, start);
    let next_left = run_to_end(next, next_words, next_start);
    (ends, next_left)
}
