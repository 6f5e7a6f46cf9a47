//! The program doesn't come this way. The project's requirements name these calls. The program runs batch by batch by `run_one`, texts by
//! `apply_until`, and looks at an object over its rows.

ghost use Rattle.std.specs.Prelude.{◌≡◌, ◌⊎◌, [], false, ⊤, IsTrue, IfErr, IsErrOf, MatchResult, length, take};
ghost use Rattle.moo_store.specs.{Stopped.{KeepsFaults}, Answered.{acknowledged, added}, Moves.{MovesBy, RunsAt, FailsRun}};
ghost use Rattle.moo_store.specs.{Runs.{RunsEach}, Stopping.{AnswersBy, to_the_end}, World.{store_of, state_of_world, MatchStore}};
ghost use Rattle.moo_dump.specs.Look.{look_of};

use crate::answering::answer_until;
use crate::fault::StoreFault;
use crate::quiet::NoNotes;
use crate::tally::Tally;
use crate::world::World;
use moo_batch::Witness;
use moo_dump::{Look, look};
use moo_text::{Notes, Reply, TextFault};
use moo_value::ObjNo;
use moo_world::Batch;
use sqlite::Alter;
use std::io::{Read, Write};

impl<S: Alter + Drop> World<S> {
    /// Runs batches in order, and commits each that is accepted before the next one is judged.
    ///
    /// One reply for each batch is added after the replies that are there, each after its commit. The faults: OutOfMemory if there is no
    /// room for the replies, before anything is done; Store if the store failed, and then that batch and the later ones have no reply;
    /// Closed if the World had failed.
    #[tactic(auto, using(crate::proofs::ListRuns::runs))]
    pub fn run(&mut self, batches: &[Batch], replies: &mut Vec<Reply>) -> Result<(), StoreFault>
        // Each batch that has a reply had its turn, one after another. If the store failed, it did so in the turn of the next batch, which
        // has no reply.
        ensures moves { MovesBy S.Store self.old self.new
            (λ from to. RunsEach from batches.now (added replies.old.items replies.new.items) result to) }
        // The replies that were there stay.
        ensures stood { take (length replies.old.items) replies.new.items ≡ replies.old.items }
        // If no reply is `accepted`, nothing changes, unless the store fails.
        ensures still { acknowledged batches.now (added replies.old.items replies.new.items) ≡ [] →
            MatchStore result (self.new ≡ self.old) ⊤ }
        // The fault is OutOfMemory, and no reply was added; or it is one of `run_one`.
        ensures fault { IfErr result (λ fault. ((fault ≡ StoreFault.OutOfMemory) × (replies.new.items ≡ replies.old.items))
            ⊎ FailsRun S.Store self.old self.new fault) }
        // The count of the disk's calls that failed gets no lower, and the connection allows as many steps of SQL as before.
        ensures kept { KeepsFaults (store_of S.Store self.old) (store_of S.Store self.new) }
    {
        if self.failed {
            return Err(StoreFault::Closed);
        }
        if replies.reserve(batches.len()).is_err() {
            return Err(StoreFault::OutOfMemory);
        }
        for batch in batches {
            match self.run_one(batch, &mut NoNotes) {
                Ok(reply) => replies.push(reply).unwrap(),
                Err(fault) => return Err(fault),
            }
        }
        Ok(())
    }

    /// The fields of an object, its children and its contents, or None if no object has the number. Nothing changes.
    ///
    /// OutOfMemory if memory runs out. Closed if the World had failed.
    pub fn object(&self, x: ObjNo) -> Result<Option<Look>, StoreFault>
        // While the World works, it is what the object shows in the World's state, or memory ran out.
        ensures look { self.now.failed ≡ false → MatchResult result
            (λ look. look ≡ look_of (state_of_world self.now).world x) (λ fault. fault ≡ StoreFault.OutOfMemory) }
        // If the World had failed, the fault is Closed.
        ensures closed { IsTrue self.now.failed → IsErrOf result StoreFault.Closed }
    {
        if self.failed {
            return Err(StoreFault::Closed);
        }
        match look(self.alloc, &self.rows, x) {
            Ok(look) => Ok(look),
            Err(_) => Err(StoreFault::OutOfMemory),
        }
    }
}

/// Runs the batches of a text to its end, as `apply_until` does if it isn't to stop, and answers how many batches were read whole, and how
/// many of them were answered `fault` or `closed`. The faults are those of `apply_until`.
pub fn apply_text<R: Read + Drop, W: Write, S: Alter + Drop, N: Notes + Witness>(
    reader: R,
    writer: &mut W,
    world: &mut World<S>,
    notes: &mut N,
) -> Result<Tally, TextFault>
    // Each item of the text that the reader gave has its turn, and its answer is written, and nothing else; or a fault comes.
    ensures { MovesBy S.Store world.old world.new (λ from to.
        AnswersBy RunsAt false from to (R.remaining reader) (W.contents writer.old) (W.contents writer.new) (to_the_end result)) }
{
    match answer_until(reader, writer, world, false, notes) {
        Ok(course) => Ok(course.tally),
        Err(fault) => Err(fault),
    }
}
