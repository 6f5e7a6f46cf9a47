//! A task over a connection.

ghost use Rattle.std.specs.Prelude.{◌≡◌, ◌⊎◌, ◌<◌, ◌^◌, ℕ, List, true, false, IfSome};
ghost use Rattle.sqlite.specs.{State.{HasCleanDisk}, Held.{state}};
ghost use Rattle.moo_world.specs.Rows.{IsGood};
ghost use Rattle.moo_store.specs.{Moment.{Moment}, Place.{Works}, Moves.{Stands}, World.{store_of}};
ghost use Rattle.moo_files.specs.Making.{rows_made};
ghost use Rattle.moo_run.specs.Run.{FailsAtOnce, RunsIn, RunsMade, RunsAnew, LeavesNothingNew, ShowsTables, only_reads, reads_input};
ghost use Rattle.moo_run.specs.Run.{ReadsFile};

use crate::commands::do_task;
use crate::loading::find_rows;
use crate::session::{HasRun, Session, Streams};
use moo_cli::{Action, Task};
use moo_files::make_in;
use moo_memory::Flat;
use moo_run_lines::Failure;
use moo_store::World;
use sqlite::{Alter, Connection};

/// Does what a task says over a World, writes the line of a failure, and hands the connection back. The status is that of `run_words`.
///
/// The World may be any: one whose tables are known to show its rows, or one of which only the rows are known.
pub fn run_in_session<'s, S: Streams, B: Alter + Drop>(
    session: &mut Session<'s, S>,
    mut world: World<B>,
    task: Task<'_>,
) -> Connection<B>
    // The file of batches or the dump that the task names may be read.
    requires read { (path : List ℕ) → ReadsFile task path → S.Host.may_read session.old.host path }
    // The task runs from the moment at which the World works.
    ensures runs { (m : Moment) → Stands B.Store world (Works m) →
        RunsIn (state B.Store result) task.entry m (⟦<Session<'s, S> as HasRun>⟧.run session.old session.new) }
    // If the disk is clean after the task, it was clean before.
    ensures clean { (m : Moment) → Stands B.Store world (Works m) →
        HasCleanDisk (state B.Store result) → HasCleanDisk (store_of B.Store world) }
    // A check with the status 0 found that the tables show the World's rows.
    ensures shown { task.entry.action ≡ Action.Check → session.new.status ≡ 0 → ShowsTables B.Store world (state B.Store result) }
    // After any task but `apply` and `serve` a crash leaves nothing that it couldn't leave before.
    ensures still { only_reads task.entry.action ≡ true → LeavesNothingNew (store_of B.Store world) (state B.Store result) }
    // Only a task whose text is `-` reads the input.
    ensures input { reads_input task.entry ≡ false → session.new.input ≡ session.old.input }
{
    let done = do_task(session, &mut world, task);
    session.finish(done);
    world.into_connection()
}

/// Makes the world of these rows, or without any the opening one, in a connection that has no tables, and does what a task says over it.
fn run_new<'s, S: Streams, B: Alter + Drop>(
    session: &mut Session<'s, S>,
    conn: Connection<B>,
    rows: Option<Flat>,
    task: Task<'_>,
) -> Connection<B>
    // The file of batches or the dump that the task names may be read.
    requires read { (path : List ℕ) → ReadsFile task path → S.Host.may_read session.old.host path }
    // The connection is in no transaction.
    requires outside { conn.in_transaction ≡ false }
    // The rows are good: sound rows of a well formed world, and petitions as they may be beside it.
    requires good { IfSome rows (λ r. IsGood r.maps) }
    // The number of the last batch fits a cell, which is a signed number of 64 bits.
    requires limit { IfSome rows (λ r. r.maps.head.seq < 2 ^ 63) }
    // The new world can't be made, and nothing is asked of the ports; or the task runs from it.
    ensures runs { let run = ⟦<Session<'s, S> as HasRun>⟧.run session.old session.new in
        (run.given.ports.rests × FailsAtOnce run) ⊎ RunsMade (state B.Store result) task.entry (rows_made rows) run }
    // Only a task whose text is `-` reads the input.
    ensures input { reads_input task.entry ≡ false → session.new.input ≡ session.old.input }
{
    match make_in(session.alloc, conn, rows) {
        Ok(world) => run_in_session(session, world, task),
        Err((fault, conn)) => {
            session.fail(Failure::from(fault));
            conn
        }
    }
}

/// Makes a new world in a connection to any store, which must have no tables, does what a task says over it, writes the line of a failure,
/// and hands the connection back. The status is that of `run_words`.
///
/// The program calls it for a task on `:memory:`. The world is that of the dump that the task names, or else the opening world.
pub fn run_over<'s, S: Streams, B: Alter + Drop>(
    session: &mut Session<'s, S>,
    conn: Connection<B>,
    task: Task<'_>,
) -> Connection<B>
    // The file of batches or the dump that the task names may be read.
    requires read { (path : List ℕ) → ReadsFile task path → S.Host.may_read session.old.host path }
    // The connection is in no transaction.
    requires outside { conn.in_transaction ≡ false }
    // The new world can't be made, and nothing is asked of the ports; or the task runs from it, and leaves what the store then holds.
    ensures runs { RunsAnew task.entry (⟦<Session<'s, S> as HasRun>⟧.run session.old session.new) (state B.Store result) }
    // Only a task whose text is `-` reads the input.
    ensures input { reads_input task.entry ≡ false → session.new.input ≡ session.old.input }
{
    match find_rows(session, task) {
        Ok(rows) => run_new(session, conn, rows, task),
        Err(failure) => {
            session.fail(failure);
            conn
        }
    }
}
