//! Rehearsing a text of batches: what running it would answer, and nothing is committed.

ghost use Rattle.std.specs.Prelude.{◌≡◌};
ghost use Rattle.moo_store.specs.{Moment.{Moment, rows_alone}, Place.{Place, Works, Failed}, Moves.{Stands}, Stopping.{AnswersBy}};
ghost use Rattle.moo_store.specs.Rehearsed.{IsRehearsedAt, RehearsesAt};

use crate::answering::{Answering, answer_until};
use crate::course::Course;
use crate::judging::reply_or_changes;
use crate::world::World;
use moo_batch::Witness;
use moo_memory::{Changes, Flat, apply_changes};
use moo_text::{Answer, Notes, Reply, TextFault};
use moo_world::{Answers, Batch};
use sqlite::Alter;
use std::alloc::Global;
use std::io::{Read, Write};
use std::marker::Model;
use std::mem::replace;

/// The rows of a World, which batches change in memory alone. It fails if memory runs out while they change.
#[derive(Drop)]
struct Rehearsal {
    alloc: Global,
    rows: Flat,
    failed: bool,
}

impl Model for Rehearsal {
    ghost use Rattle.std.specs.Prelude.{◌≡◌, false};
    ghost use Rattle.moo_world.specs.Rows.{IsGood};
    ghost use Rattle.moo_store.specs.Rehearsed.{Rehearsal as Rehearsed, rehearsal_code};

    ghost Value = { Rehearsed };

    ghost coded = { rehearsal_code };

    ghost view = { λ r. record { rows = r.rows; failed = r.failed } };

    ghost invariant = { λ r. r.failed ≡ false → IsGood r.rows.maps };
}

impl Rehearsal {
    ghost use Rattle.std.specs.Prelude.{◌≡◌, true, false};
    ghost use Rattle.moo_rows.specs.Maps.{Maps};
    ghost use Rattle.moo_memory.specs.Changes.{AreChanges};
    ghost use Rattle.moo_world.specs.Rows.{IsGood};
    ghost use Rattle.moo_store.specs.Place.{Place};
    ghost use Rattle.moo_store.specs.Rehearsed.{IsRehearsedAt, RehearsesAt};

    /// Takes the rows out of a World, which has failed from then on. Nothing is asked of its store.
    fn of<S: Alter + Drop>(world: &mut World<S>) -> Rehearsal
        // The rehearsal has the World's rows, and has failed if the World had.
        ensures rows { (result.rows ≡ world.old.rows) × (result.failed ≡ world.old.failed) }
        // The World has failed, and its connection is as it was.
        ensures still { (world.new.connection ≡ world.old.connection) × (world.new.failed ≡ true) }
    {
        let failed = world.failed;
        world.failed = true;
        Rehearsal {
            alloc: world.alloc,
            rows: replace(&mut world.rows, Flat::new(world.alloc)),
            failed,
        }
    }

    /// Makes the changes of an accepted batch in the rows, and gives the answer to it. If memory runs out, the rehearsal has failed.
    fn accept(&mut self, answers: Answers, changes: Changes) -> Answer
        // The rehearsal hasn't failed.
        requires works { self.old.failed ≡ false }
        // The changes lead to rows of a world.
        requires changes { (next : Maps) × AreChanges self.old.rows.maps next changes × IsGood next }
        // The batch is accepted, with its number and its answers.
        ensures answer { result ≡ Answer.Replied (Reply.Accepted changes.head.seq answers) }
        // The rows have the changes, unless memory ran out meanwhile.
        ensures rows { (next : Maps) → AreChanges self.old.rows.maps next changes → self.new.failed ≡ false →
            self.new.rows.maps ≡ next }
    {
        let seq = changes.head.seq;
        if apply_changes(&mut self.rows, changes).is_err() {
            self.failed = true;
        }
        Answer::Replied(Reply::Accepted { seq, answers })
    }

    /// Answers a batch as if it was run, and makes the changes of an accepted one in the rows alone: its reply, or `closed` if the
    /// rehearsal has failed. If the batch is refused, the witness sees why, once.
    fn rehearse<N: Witness>(&mut self, batch: &Batch, witness: &mut N) -> Answer
        // Running the batch where the rehearsal is may give this answer, and lead to where the rehearsal then is. It is never `fault`.
        ensures { (from : Place) → IsRehearsedAt self.old from → (to : Place) × IsRehearsedAt self.new to
            × RehearsesAt from batch.now result to }
    {
        if self.failed {
            return Answer::Closed;
        }
        match reply_or_changes(self.alloc, &self.rows, batch, witness) {
            Ok((answers, changes)) => self.accept(answers, changes),
            Err(reply) => Answer::Replied(reply),
        }
    }
}

impl Answering for Rehearsal {
    ghost answered = { λ old batch a new. (from : Place) → IsRehearsedAt old from → (to : Place) × IsRehearsedAt new to
        × RehearsesAt from batch a to };

    fn allocator(&self) -> Global {
        self.alloc
    }

    fn answer<N: Witness>(&mut self, batch: &Batch, witness: &mut N) -> Answer {
        self.rehearse(batch, witness)
    }
}

/// Answers each batch of a text as running it would, each judged on what the batches before it would have left, and commits nothing. If
/// it is to stop, it ends after the first answer that isn't `accepted`. Each answer is written before the next batch is read. The faults
/// are those of `apply_until`.
///
/// The World has failed then: its rows were used up. What is in its store is as it was.
pub fn rehearse_text<R: Read + Drop, W: Write, S: Alter + Drop, N: Notes + Witness>(
    reader: R,
    writer: &mut W,
    world: &mut World<S>,
    stop: bool,
    notes: &mut N,
) -> Result<Course, TextFault>
    // The text is answered as if it was run over the rows alone, and its answers are written, and nothing else. The World has failed where
    // it was.
    ensures rehearses { (m : Moment) → Stands S.Store world.old (Works m) → Stands S.Store world.new (Failed m)
        × ((end : Place) × AnswersBy RehearsesAt stop (Works (rows_alone m.rows)) end
        (R.remaining reader) (W.contents writer.old) (W.contents writer.new) result) }
    // Nothing was asked of the store.
    ensures still { world.new.connection ≡ world.old.connection }
{
    let mut rehearsal = Rehearsal::of(world);
    answer_until(reader, writer, &mut rehearsal, stop, notes)
}
