//! The law of a run that comes to a stop at any call.

ghost use Rattle.std.specs.Prelude.{◌≡◌, ℕ, List, map};
ghost use Rattle.sqlite.specs.WalFiles.{image_at};
ghost use Rattle.moo_cli.specs.{declared.task.Task.{Task}, Tasks.{NamesTask}};
ghost use Rattle.moo_run.specs.Run.{ReadsFile};
ghost use Rattle.moo_run_laws.specs.Halted.{HaltsBefore};

use crate::again::run_and_run_again;
use crate::host::Halt;
use crate::streams::{HaltingStreams, halting};
use moo_files::{Remains, WorldFiles};
use moo_run::{HasRun, Session, Streams};
use sqlite_disk::Fuse;

/// Runs words as the program does, by `run_to_end`, until the run comes to a stop. Then other words run over what the disk leaves.
///
/// A process that is stopped has made so many calls of its log and of its database file, written so many bytes of its output, and taken so
/// many connections. This run with these numbers does the same, and then gets no more calls, bytes and connections. So (no clause says it)
/// the disk leaves the same bytes, and the run acknowledges no less. A write or a cut in progress counts as made, and a sync as not made.
pub fn run_halted<'s, 'n, S: Streams, N: Streams>(
    session: Session<'s, S>,
    halt: Halt,
    words: &[&str],
    start: S::File,
    next: &mut Session<'n, N>,
    next_words: &[&str],
    next_start: N::File,
) -> (
    Session<'s, HaltingStreams<S>>,
    Remains<S::File, Fuse<<S::Host as WorldFiles<S::File>>::Disk>>,
    Remains<N::File, <N::Host as WorldFiles<N::File>>::Disk>,
)
    // The world's file that the first words name may be looked at and opened.
    requires may { (task : Task) → NamesTask (map (λ word. word.now) words.now) task → S.Host.may_open session.host task.file.now }
    // The file of batches or the dump that the first words name may be read.
    requires read { (task : Task) (path : List ℕ) → NamesTask (map (λ word. word.now) words.now) task → ReadsFile task path →
        S.Host.may_read session.host path }
    // The world's file that the next words name may be looked at and opened.
    requires next_may { (task : Task) → NamesTask (map (λ word. word.now) next_words.now) task →
        N.Host.may_open next.old.host task.file.now }
    // The file of batches or the dump that the next words name may be read.
    requires next_read { (task : Task) (path : List ℕ) → NamesTask (map (λ word. word.now) next_words.now) task →
        ReadsFile task path → N.Host.may_read next.old.host path }
    // The first run begins with this session, whose files, output and connections stop after what `halt` grants. A run that opened or made
    // no world of its file tells why (`TellsEnd`). If the disk of the first returned what was written, the second goes on where the first
    // left off (`HandsOver`, as in `run_and_run_again`), from any bytes that the disk may leave once the files are closed. `EndLeaves`
    // supposes: if closing shut the store, or no task ran and its trees aren't numbered, the bytes hold a database that the store may
    // leave; if `sqlite` was opening the files, their pages end in no checksums; files that it or the host couldn't open are as they were.
    // If the words of the second run take up the file, that run starts from what the files held, or, of version 1, from some moment of the
    // same rows, if no task ran over them, and else after the batches that were answered `accepted` (of a service, after all that were
    // accepted), or after one more; or it fails for a cause, and tells no damage. The first record is the halted run, the second the next
    // one: the words, what the files held, the session before and after, how the words ended, and what was left once the file was closed.
    // How the words ended isn't handed out, nor the session that the halted run began with: there are some that fit.
    ensures halted { HaltsBefore ⟦<Session<'s, HaltingStreams<S>> as HasRun>⟧ ⟦<Session<'n, N> as HasRun>⟧
        (λ began. (began.host ≡ record { inner = session.entry.host; halt = halt }) × (began.input ≡ session.entry.input)
        × (began.output ≡ record { inner = session.entry.output; bytes_left = halt.bytes }))
        (λ began ends. record {
          words = map (λ word. word.now) words.now;
          image = image_at S.File.Start;
          began = began;
          ended = result.0;
          ends = ends;
          closed = result.1;
        })
        (λ ends. record {
          words = map (λ word. word.now) next_words.now;
          image = image_at N.File.Start;
          began = next.old;
          ended = next.new;
          ends = ends;
          closed = result.2;
        }) }
{
    let mut session: Session<'_, HaltingStreams<S>> = halting(session, halt);
    let left = run_and_run_again(&mut session, words, start, next, next_words, next_start);
    (session, left.0, left.1)
}
