//! The file of a task.

ghost use Rattle.std.specs.Prelude.{◌≡◌, ℕ, List, true, false};
ghost use Rattle.sqlite.specs.{State.{HasCleanDisk}, Files.{over_files, file_state}, WalFiles.{image_at}};
ghost use Rattle.moo_store.specs.{Moment.{Moment}, Place.{Works}, Moves.{Stands}, World.{store_of}};
ghost use Rattle.moo_run_lines.specs.Lines.{Tells, store_failure};
ghost use Rattle.moo_run.specs.Run.{begins_anew, reads_input, ReadsFile, only_reads, LeavesNothingNew, RunsIn, RunsTask};
ghost use Rattle.moo_run.specs.Ends.{RunsFile, EndsWith};

use crate::ends::Ends;
use crate::host::Advice;
use crate::loading::find_rows;
use crate::over::{run_in_session, run_over};
use crate::session::{HasRun, Session, Streams};
use moo_cli::{Action, Task};
use moo_files::{Remains, WorldFiles, make_from, open_from};
use moo_run_lines::Failure;
use moo_store::{StoreFault, World};
use sqlite::{Connection, Error, ErrorCode, FileStore, Start};
use sqlite_disk::Disk;

/// Whether a task begins with a new world: `init` and `load` do, and each task on `:memory:`.
fn begins_anew(task: Task<'_>) -> bool
    ensures { result ≡ begins_anew task.entry }
{
    matches!(task.action, Action::Init | Action::Load { .. }) || task.file == ":memory:"
}

/// `run_in_session` at the store in files, over any disk: a function of its own, since a function with such a call takes long to prove.
fn run_in_files<'s, S: Streams, D: Disk + Drop>(
    session: &mut Session<'s, S>,
    world: World<FileStore<D>>,
    task: Task<'_>,
) -> Connection<FileStore<D>>
    // The file of batches or the dump that the task names may be read.
    requires read { (path : List ℕ) → ReadsFile task path → S.Host.may_read session.old.host path }
    // The task runs from the moment at which the World works.
    ensures runs { (m : Moment) → Stands over_files world (Works m) →
        RunsIn (file_state result) task.entry m (⟦<Session<'s, S> as HasRun>⟧.run session.old session.new) }
    // If the disk is clean after the task, it was clean before.
    ensures clean { (m : Moment) → Stands over_files world (Works m) →
        HasCleanDisk (file_state result) → HasCleanDisk (store_of over_files world) }
    // After any task but `apply` and `serve` a crash leaves nothing that it couldn't leave before.
    ensures still { only_reads task.entry.action ≡ true → LeavesNothingNew (store_of over_files world) (file_state result) }
    // Only a task whose text is `-` reads the input.
    ensures input { reads_input task.entry ≡ false → session.new.input ≡ session.old.input }
{
    run_in_session(session, world, task)
}

/// The failure of a run whose world couldn't be made or opened, by that fault.
fn store_failure(fault: StoreFault) -> Failure
    ensures { result ≡ store_failure fault }
{
    Failure::from(fault)
}

/// The failure of a run whose file couldn't be opened, by that fault. A missing file is told apart, for what is said of it on standard
/// error.
fn refusal_of<T: Start, H: WorldFiles<T>>(host: &H, file: &str, fault: StoreFault) -> Failure
    // The file may be looked at.
    requires may { H.may_open host.now file.now }
    ensures { Tells fault result }
{
    let failure = store_failure(fault);
    let is_unopened = matches!(
        failure,
        Failure::Store(Error::SqliteFailure(ErrorCode::CannotOpen))
    );
    if is_unopened && host.metadata(file).is_err() {
        return Failure::NoFile;
    }
    failure
}

/// Makes the new world that a task begins with in its file, does what the task says over it, and hands back what is left of the file.
fn run_made<'s, S: Streams>(
    session: &mut Session<'s, S>,
    start: S::File,
    task: Task<'_>,
) -> Ends<S::File, <S::Host as WorldFiles<S::File>>::Disk>
    // The file of the task may be looked at and opened.
    requires may { S.Host.may_open session.old.host task.file.now }
    // The file of batches or the dump that the task names may be read.
    requires read { (path : List ℕ) → ReadsFile task path → S.Host.may_read session.old.host path }
    requires anew { begins_anew task ≡ true }
    // By what the file held: the task ran from the world that was made in it, or none was made.
    ensures runs { RunsFile task.entry (image_at S.File.Start) result (⟦<Session<'s, S> as HasRun>⟧.run session.old session.new) }
    // Only a task whose text is `-` reads the input.
    ensures input { reads_input task.entry ≡ false → session.new.input ≡ session.old.input }
{
    let rows = match find_rows(session, task) {
        Ok(rows) => rows,
        Err(failure) => {
            session.fail(failure);
            return Ends::Refused(Remains::Untouched(start));
        }
    };
    match make_from(session.alloc, &session.host, task.file, start, rows) {
        Ok(world) => Ends::Ran(run_in_files(session, world, task)),
        Err((fault, remains)) => {
            session.fail_to_open(task.file, store_failure(fault));
            Ends::Refused(remains)
        }
    }
}

/// Has the host say on standard error, of a file that is checked or served, if its pages make it slower than it could be.
fn note_pages<H: Advice>(host: &H, task: Task<'_>) {
    if matches!(task.action, Action::Check | Action::Serve(_)) {
        host.notes_pages(task.file);
    }
}

/// Opens the world of a file, does what the task says over it, and hands back what is left of the file.
fn run_found<'s, S: Streams>(
    session: &mut Session<'s, S>,
    start: S::File,
    task: Task<'_>,
) -> Ends<S::File, <S::Host as WorldFiles<S::File>>::Disk>
    // The file of the task may be looked at and opened.
    requires may { S.Host.may_open session.old.host task.file.now }
    // The file of batches or the dump that the task names may be read.
    requires read { (path : List ℕ) → ReadsFile task path → S.Host.may_read session.old.host path }
    requires other { begins_anew task ≡ false }
    // By what the file held: the task ran over its world, or the file was refused.
    ensures runs { RunsFile task.entry (image_at S.File.Start) result (⟦<Session<'s, S> as HasRun>⟧.run session.old session.new) }
    // Only a task whose text is `-` reads the input.
    ensures input { reads_input task.entry ≡ false → session.new.input ≡ session.old.input }
{
    match open_from(session.alloc, &session.host, task.file, start) {
        Ok(world) => {
            note_pages(&session.host, task);
            Ends::Ran(run_in_files(session, world, task))
        }
        Err((fault, remains)) => {
            let failure = refusal_of(&session.host, task.file, fault);
            session.fail_to_open(task.file, failure);
            Ends::Refused(remains)
        }
    }
}

/// Does what a task says over its file, writes the line of a failure, and hands back what is left of the file. The status is that
/// of `run_words`.
///
/// `S::File` is what the file of the words holds, and `S::Host` the host, with its files and its ports: this is proved for all contents and
/// all connections, and no code looks at them. No other path is looked at or opened. The program calls it for files that nobody has read.
///
/// Only `init` and `load` make a file.
pub fn run_from<'s, S: Streams>(
    session: &mut Session<'s, S>,
    start: S::File,
    task: Task<'_>,
) -> Ends<S::File, <S::Host as WorldFiles<S::File>>::Disk>
    // The file of the task may be looked at and opened.
    requires may { S.Host.may_open session.old.host task.file.now }
    // The file of batches or the dump that the task names may be read.
    requires read { (path : List ℕ) → ReadsFile task path → S.Host.may_read session.old.host path }
    // By what the file held: the task ran over its world or a new one, or no world was opened or made.
    ensures runs { RunsFile task.entry (image_at S.File.Start) result (⟦<Session<'s, S> as HasRun>⟧.run session.old session.new) }
    // Only a task whose text is `-` reads the input.
    ensures input { reads_input task.entry ≡ false → session.new.input ≡ session.old.input }
{
    if begins_anew(task) {
        run_made(session, start, task)
    } else {
        run_found(session, start, task)
    }
}

/// Does what a task says over a new world in memory, and writes the line of a failure.
fn run_in_memory<'s, S: Streams>(session: &mut Session<'s, S>, task: Task<'_>)
    // The file of batches or the dump that the task names may be read.
    requires read { (path : List ℕ) → ReadsFile task path → S.Host.may_read session.old.host path }
    requires anew { begins_anew task ≡ true }
    // The task runs from the new world that it begins with; or that world can't be made, and a line tells why.
    ensures runs { RunsTask task.entry (⟦<Session<'s, S> as HasRun>⟧.run session.old session.new) }
    // Only a task whose text is `-` reads the input.
    ensures input { reads_input task.entry ≡ false → session.new.input ≡ session.old.input }
{
    let Ok(conn) = Connection::open_in_memory(session.alloc) else {
        return session.fail(Failure::OutOfMemory);
    };
    let _conn = run_over(session, conn, task);
}

/// Does what a task says, and hands back what is left of its file. On `:memory:` that is the unspent start. The status is that of
/// `run_words`.
pub(crate) fn run_task<'s, S: Streams>(
    session: &mut Session<'s, S>,
    task: Task<'_>,
    start: S::File,
) -> Ends<S::File, <S::Host as WorldFiles<S::File>>::Disk>
    // The file of the task may be looked at and opened.
    requires may { S.Host.may_open session.old.host task.file.now }
    // The file of batches or the dump that the task names may be read.
    requires read { (path : List ℕ) → ReadsFile task path → S.Host.may_read session.old.host path }
    // Whatever the file holds, the task runs from the world that it begins with or that was found, or none is made or found and a line
    // tells why.
    ensures runs { RunsTask task.entry (⟦<Session<'s, S> as HasRun>⟧.run session.old session.new) }
    // By what the file held: a task on a file runs over it, and a task on `:memory:` over no file.
    ensures ends { EndsWith task.entry (image_at S.File.Start) result (⟦<Session<'s, S> as HasRun>⟧.run session.old session.new) }
    // Only a task whose text is `-` reads the input.
    ensures input { reads_input task.entry ≡ false → session.new.input ≡ session.old.input }
{
    let file = task.file;
    if file == ":memory:" {
        run_in_memory(session, task);
        Ends::NoFile(start)
    } else {
        run_from(session, start, task)
    }
}
