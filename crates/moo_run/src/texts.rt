//! What is done with a text of batches: they are run, rehearsed or asked.

ghost use Rattle.std.specs.{Prelude.{◌≡◌, ◌==◌, false, codes, if◌then◌else◌}, Str.{bytes_eq}};
ghost use Rattle.moo_store.specs.{Moment.{Moment}, Place.{Works}, Moves.{Stands}, World.{store_of}};
ghost use Rattle.moo_run.specs.Run.{course_status, changes_world, ComesOf, EndsTask, EndsText, LeavesNothingNew};

use crate::host::BatchFiles;
use crate::session::{HasRun, Session, Streams};
use moo_cli::Options;
use moo_reasons::StandardNotes;
use moo_run_lines::{Failure, explain_lost};
use moo_store::{Course, Tally, World, apply_until, ask_text, rehearse_text};
use moo_text::TextFault;
use sqlite::Alter;
use std::io::{Eprint, Read, Write};

/// What is done with the batches of a text.
#[derive(Clone, Copy, Drop)]
pub(crate) enum Manner {
    /// The batches are run.
    Apply(Options),
    /// The batches are rehearsed: the answers are what running them would answer.
    Rehearse(Options),
    /// The batches are asked: each answer is what the batch would be answered at present.
    Ask,
}

/// The status of a text that was answered, by how many of its answers are `fault` or `closed`: 1 if any is, else 0.
fn status_after(tally: Tally) -> u8
    ensures { result ≡ (if tally.lost == 0 then 0 else 1) }
{
    if tally.lost == 0 { 0 } else { 1 }
}

/// The status of a text that was answered so far: 1 if it was stopped, or if an answer is `fault` or `closed`, else 0.
fn course_status(course: Course) -> u8
    ensures { result ≡ course_status course }
{
    if course.stopped {
        1
    } else {
        status_after(course.tally)
    }
}

/// Runs, rehearses or asks the batches of a text, and writes their replies. The notes say on standard error why a batch isn't accepted. The
/// fault is that of the reader, of the writer, of memory, or that the text is too long.
fn answer_by<C: Eprint, R: Read + Drop, W: Write, B: Alter + Drop>(
    world: &mut World<B>,
    text: R,
    manner: Manner,
    output: &mut W,
    notes: &mut StandardNotes<'_, C>,
) -> Result<Course, TextFault>
    // From the moment at which the World works, the text is answered in this manner, to its end or until it stops.
    ensures answers { (m : Moment) → Stands B.Store world.old (Works m) → EndsTask B.Store world.old world.new m (λ end.
        ComesOf manner m end (R.remaining text) (W.contents output.old) (W.contents output.new) result) }
    // If the batches aren't run, a crash leaves nothing that it couldn't leave before.
    ensures still { changes_world manner ≡ false → LeavesNothingNew (store_of B.Store world.old) (store_of B.Store world.new) }
{
    match manner {
        Manner::Apply(options) => apply_until(text, output, world, options.stop, notes),
        Manner::Rehearse(options) => rehearse_text(text, output, world, options.stop, notes),
        Manner::Ask => match ask_text(text, output, world, notes) {
            Ok(tally) => Ok(Course {
                tally,
                stopped: false,
            }),
            Err(fault) => Err(fault),
        },
    }
}

/// Runs, rehearses or asks the batches of a text, writes their replies, and answers the status. The notes say on standard error why a batch
/// isn't accepted, and the console what to do if the store failed in one that was run.
fn answer_batches_text<C: Eprint, R: Read + Drop, W: Write, B: Alter + Drop>(
    world: &mut World<B>,
    text: R,
    manner: Manner,
    output: &mut W,
    console: &C,
    mut notes: StandardNotes<'_, C>,
) -> Result<u8, Failure>
    // From the moment at which the World works, the text is answered in this manner, to its end or until it stops.
    ensures answers { (m : Moment) → Stands B.Store world.old (Works m) → EndsText B.Store world.old world.new
        ⊥ manner m (R.remaining text) (W.contents output.old) (W.contents output.new) result }
    // If the batches aren't run, a crash leaves nothing that it couldn't leave before.
    ensures still { changes_world manner ≡ false → LeavesNothingNew (store_of B.Store world.old) (store_of B.Store world.new) }
{
    let done = answer_by(world, text, manner, output, &mut notes);
    notes.finish();
    match done {
        Ok(course) => {
            if matches!(manner, Manner::Apply(_)) {
                explain_lost(console, course.tally);
            }
            Ok(course_status(course))
        }
        Err(fault) => Err(Failure::from(fault)),
    }
}

/// Runs, rehearses or asks the batches of the file of this path, or of the input for `-`, and answers the status: 1 if an answer is `fault`
/// or `closed`, or if the text was stopped, else 0. Standard error says why a batch isn't accepted, and what to do if the store failed in
/// one that was run. NoBatches if the file can't be opened; Read, Write, TooLong or OutOfMemory if the text stops at that fault.
pub(crate) fn answer_batches<'s, S: Streams, B: Alter + Drop>(
    session: &mut Session<'s, S>,
    world: &mut World<B>,
    manner: Manner,
    path: &str,
) -> Result<u8, Failure>
    // The file of this path may be read, if it isn't the input.
    requires read { bytes_eq path.now (codes "-") ≡ false → S.Host.may_read session.old.host path.now }
    // From the moment at which the World works, the text is answered in this manner, to its end or until it stops; or its file can't be
    // opened, and nothing is done.
    ensures answers { (m : Moment) → Stands B.Store world.old (Works m) →
        let run = ⟦<Session<'s, S> as HasRun>⟧.run session.old session.new in
        EndsText B.Store world.old world.new (run.given.lacks path.now) manner m (run.given.text path.now) run.before run.after result }
    // If the batches aren't run, a crash leaves nothing that it couldn't leave before.
    ensures still { changes_world manner ≡ false → LeavesNothingNew (store_of B.Store world.old) (store_of B.Store world.new) }
    // The host, with its files and its ports, is as it was.
    ensures rests { session.new.host ≡ session.old.host }
    // The input is read only if the text is `-`.
    ensures input { bytes_eq path.now (codes "-") ≡ false → session.new.input ≡ session.old.input }
{
    let (console, alloc) = (session.console, session.alloc);
    if path == "-" {
        let notes = StandardNotes::new(console, alloc, None);
        return answer_batches_text(
            world,
            &mut session.input,
            manner,
            &mut session.output,
            console,
            notes,
        );
    }
    match session.host.open(path) {
        Ok(file) => {
            let notes = StandardNotes::new(console, alloc, Some(path));
            answer_batches_text(world, file, manner, &mut session.output, console, notes)
        }
        Err(_) => Err(Failure::NoBatches),
    }
}
