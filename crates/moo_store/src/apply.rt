//! Running a text of batches.

ghost use Rattle.moo_store.specs.{Moves.{MovesBy, RunsAt}, Stopping.{AnswersBy}};

use crate::answering::{Answering, answer_to, answer_until};
use crate::course::Course;
use crate::world::World;
use moo_batch::Witness;
use moo_text::{Answer, Notes, TextFault};
use moo_world::Batch;
use sqlite::Alter;
use std::alloc::Global;
use std::io::{Read, Write};

impl<S: Alter + Drop> Answering for World<S> {
    ghost answered = { λ old batch a new. MovesBy S.Store old new (λ from to. RunsAt from batch a to) };

    fn allocator(&self) -> Global {
        self.alloc
    }

    fn answer<N: Witness>(&mut self, batch: &Batch, witness: &mut N) -> Answer {
        answer_to(self.run_one(batch, witness))
    }
}

/// Runs the batches of a text in turn, and writes each answer before the next batch is read. Answers how many batches were read whole, and
/// how many of them were answered `fault` or `closed`; after a `fault` the text is read on, and its batches are answered `closed`.
///
/// If it is to stop, it ends after the first answer that isn't `accepted`, which is still written: the World is then that of the batches up
/// to it, and what follows it in the text isn't run.
///
/// The notes are told of each item once its answer is written. If a batch is refused, they see why before that.
///
/// The faults: Read if the reader fails, and the unfinished batch is dropped; Write if the writer fails or takes no bytes, and
/// OutOfMemory, both of which may come after a commit, which stays; Long if the text goes on after 1,073,741,824 bytes.
pub fn apply_until<R: Read + Drop, W: Write, S: Alter + Drop, N: Notes + Witness>(
    reader: R,
    writer: &mut W,
    world: &mut World<S>,
    stop: bool,
    notes: &mut N,
) -> Result<Course, TextFault>
    // Each item of the text has its turn, up to its end or, if it is to stop, to the first answer that isn't `accepted`; and its answer is
    // written, and nothing else. At a fault the answers to the first items are written, and perhaps the beginning of the next answer.
    ensures { MovesBy S.Store world.old world.new (λ from to.
        AnswersBy RunsAt stop from to (R.remaining reader) (W.contents writer.old) (W.contents writer.new) result) }
{
    answer_until(reader, writer, world, stop, notes)
}
