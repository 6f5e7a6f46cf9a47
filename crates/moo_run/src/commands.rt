//! What each command does over a world.

ghost use Rattle.std.specs.{Prelude.{◌≡◌, ℕ, List, true, false, IfOk, IfErr, OnOk}, Io.KnownBytes.{Appends}};
ghost use Rattle.moo_dump.specs.Dump.{dump};
ghost use Rattle.moo_store.specs.{Moment.{Moment}, Place.{Works}, Moves.{Stands}, World.{store_of, state_of_world}};
ghost use Rattle.moo_run_lines.specs.Lines.{loaded_line};
ghost use Rattle.moo_run.specs.Run.{RunsAction, EndsCheck, line_of, StopsIn, ShowsTables, LeavesNothingNew, only_reads, serves};
ghost use Rattle.moo_run.specs.Run.{reads_input, ReadsFile};

use crate::session::{HasRun, Session, Streams};
use crate::texts::{Manner, answer_batches};
use moo_cli::{Action, Batches, Service, Task};
use moo_http::{Duty, Tools, serve_port};
use moo_run_lines::{Failure, checked_line, loaded_line};
use moo_store::World;
use moo_text::put_all;
use sqlite::Alter;
use std::alloc::Global;
use std::io::Write;

/// Writes the dump of a World, and answers the status 0. A failure if the World had failed, the writer fails, or memory runs out.
fn write_dump<W: Write, B: Alter + Drop>(world: &World<B>, output: &mut W) -> Result<u8, Failure>
    // All of the dump is written.
    ensures done { world.now.failed ≡ false →
        IfOk result (λ status. Appends (W.contents output.old) (W.contents output.new) (dump (state_of_world world.now)) × (status ≡ 0)) }
    // At a failure the beginning of it is written.
    ensures stops { world.now.failed ≡ false →
        IfErr result (λ failure. StopsIn (dump (state_of_world world.now)) failure (W.contents output.old) (W.contents output.new)) }
{
    world.dump(output)?;
    Ok(0)
}

/// Writes a line, and answers the status 0. Write if the writer fails: the beginning of the line is written then.
fn put_text<W: Write>(line: &str, output: &mut W) -> Result<u8, Failure>
    ensures done { IfOk result (λ status. Appends (W.contents output.old) (W.contents output.new) line.now × (status ≡ 0)) }
    ensures stops { IfErr result (λ failure. StopsIn line.now failure (W.contents output.old) (W.contents output.new)) }
{
    match put_all(output, line.as_bytes()) {
        Ok(()) => Ok(0),
        Err(_) => Err(Failure::Write),
    }
}

/// Tests the tables of a World, writes its number and how many objects it has, and answers the status 0. A failure if the World had failed,
/// if the tables show other rows or no world, if the store or the writer fails, or if memory runs out.
#[tactic(auto, using(moo_store::proofs::Causes::cause_of_store))]
fn check<W: Write, B: Alter + Drop>(
    alloc: Global,
    world: &mut World<B>,
    output: &mut W,
) -> Result<u8, Failure>
    // From the moment at which the World works, the tables are tested and the line is written; or that stops.
    ensures checks { (m : Moment) → Stands B.Store world.old (Works m) →
        EndsCheck B.Store world.old world.new m (W.contents output.old) (W.contents output.new) result }
    // The check succeeds only if the tables show the rows of the World.
    ensures shown { OnOk result (ShowsTables B.Store world.old (store_of B.Store world.new)) }
    // A crash leaves nothing that it couldn't leave before.
    ensures still { LeavesNothingNew (store_of B.Store world.old) (store_of B.Store world.new) }
{
    let seq = world.seq()?;
    let objects = world.check()?;
    match checked_line(alloc, seq, objects) {
        Ok(line) => put_text(line.as_str(), output),
        Err(_) => Err(Failure::OutOfMemory),
    }
}

/// Writes the line of a load, with the number of the world and how many objects it has, and answers the status 0. A failure if the writer
/// fails, or memory runs out.
fn put_loaded<W: Write>(
    alloc: Global,
    seq: u64,
    objects: u64,
    output: &mut W,
) -> Result<u8, Failure>
    ensures done { let line = loaded_line seq objects in
        IfOk result (λ status. Appends (W.contents output.old) (W.contents output.new) line × (status ≡ 0)) }
    ensures stops { let line = loaded_line seq objects in
        IfErr result (λ failure. StopsIn line failure (W.contents output.old) (W.contents output.new)) }
{
    match loaded_line(alloc, seq, objects) {
        Ok(line) => put_text(line.as_str(), output),
        Err(_) => Err(Failure::OutOfMemory),
    }
}

/// Writes the line of a load of this World; the status is 0. A failure if the World had failed, the writer fails, or memory runs out.
fn show_loaded<W: Write, B: Alter + Drop>(
    alloc: Global,
    world: &World<B>,
    output: &mut W,
) -> Result<u8, Failure>
    ensures done { world.now.failed ≡ false →
        let line = line_of loaded_line (state_of_world world.now) in
        IfOk result (λ status. Appends (W.contents output.old) (W.contents output.new) line × (status ≡ 0)) }
    ensures stops { world.now.failed ≡ false →
        let line = line_of loaded_line (state_of_world world.now) in
        IfErr result (λ failure. StopsIn line failure (W.contents output.old) (W.contents output.new)) }
{
    let seq = world.seq()?;
    let objects = world.object_count()?;
    put_loaded(alloc, seq, objects, output)
}

/// Serves so many connections on a port; the status is 0. A failure if the port can't be listened on, the output fails, or memory runs out.
fn serve<'s, S: Streams, B: Alter + Drop>(
    session: &mut Session<'s, S>,
    world: &mut World<B>,
    service: Service,
) -> Result<u8, Failure>
    // From the moment at which the World works, the connections are served, and their turns lead to where it is; or that stops.
    ensures serves { (m : Moment) → Stands B.Store world.old (Works m) →
        let run = ⟦<Session<'s, S> as HasRun>⟧.run session.old session.new in
        RunsAction B.Store world.old world.new (Action.Serve service) m run result }
    // Nothing is read of the input.
    ensures input { session.new.input ≡ session.old.input }
{
    let Service { port, count, ticks } = service;
    let tools = Tools {
        alloc: session.alloc,
        console: session.console,
    };
    let duty = Duty { port, count, ticks };
    match serve_port(&tools, &mut session.host, world, duty, &mut session.output) {
        Ok(()) => Ok(0),
        Err(fault) => Err(Failure::from(fault)),
    }
}

/// Does over a World what a task says, and answers the status, or why it stopped. A failure is that of its command.
pub(crate) fn do_task<'s, S: Streams, B: Alter + Drop>(
    session: &mut Session<'s, S>,
    world: &mut World<B>,
    task: Task<'_>,
) -> Result<u8, Failure>
    // The file of batches or the dump that the task names may be read.
    requires read { (path : List ℕ) → ReadsFile task path → S.Host.may_read session.old.host path }
    // From the moment at which the World works, the task is done, or stops.
    ensures ends { (m : Moment) → Stands B.Store world.old (Works m) →
        let run = ⟦<Session<'s, S> as HasRun>⟧.run session.old session.new in
        RunsAction B.Store world.old world.new task.entry.action m run result }
    // A check succeeds only if the tables show the rows of the World.
    ensures shown { task.entry.action ≡ Action.Check → OnOk result (ShowsTables B.Store world.old (store_of B.Store world.new)) }
    // Unless the task serves, the host, with its files and its ports, is as it was.
    ensures rests { serves task.entry.action ≡ false → session.new.host ≡ session.old.host }
    // After any task but `apply` and `serve` a crash leaves nothing that it couldn't leave before.
    ensures still { only_reads task.entry.action ≡ true → LeavesNothingNew (store_of B.Store world.old) (store_of B.Store world.new) }
    // Only a task whose text is `-` reads the input.
    ensures input { reads_input task.entry ≡ false → session.new.input ≡ session.old.input }
{
    match task.action {
        Action::Init => put_text("created\n", &mut session.output),
        Action::Apply(Batches { path, options }) => {
            answer_batches(session, world, Manner::Apply(options), path)
        }
        Action::Rehearse(Batches { path, options }) => {
            answer_batches(session, world, Manner::Rehearse(options), path)
        }
        Action::Ask { batches } => answer_batches(session, world, Manner::Ask, batches),
        Action::Dump => write_dump(world, &mut session.output),
        Action::Load { .. } => show_loaded(session.alloc, world, &mut session.output),
        Action::Check => check(session.alloc, world, &mut session.output),
        Action::Serve(service) => serve(session, world, service),
    }
}
