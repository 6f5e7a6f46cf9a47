//! Asking a text of batches, which changes nothing.

ghost use Rattle.std.specs.Prelude.{◌≡◌, false};
ghost use Rattle.moo_store.specs.{Place.{Place}, Moves.{Stands, AsksAt}, Stopping.{AnswersBy, to_the_end}};

use crate::answering::{Answering, answer_to, answer_until};
use crate::tally::Tally;
use crate::world::World;
use moo_batch::Witness;
use moo_text::{Answer, Notes, TextFault};
use moo_world::Batch;
use sqlite::Alter;
use std::alloc::Global;
use std::io::{Read, Write};

/// A World that is only asked.
#[derive(Drop)]
struct Questions<'a, S: Alter> {
    world: &'a World<S>,
}

impl<'a, S: Alter + Drop> Answering for Questions<'a, S> {
    ghost answered = { λ old batch a new. (new ≡ old)
        × ((place : Place) → Stands S.Store old.world.now place → AsksAt place batch a place) };

    fn allocator(&self) -> Global {
        self.world.allocator()
    }

    #[tactic(auto, using(crate::proofs::Texts::asked_at))]
    fn answer<N: Witness>(&mut self, batch: &Batch, witness: &mut N) -> Answer {
        answer_to(self.world.ask(batch, witness))
    }
}

/// Answers each batch of a text as it would be answered at present, with the present number, and changes nothing: no batch sees another.
/// Each answer is written before the next batch is read. The faults are those of `apply_until`.
pub fn ask_text<R: Read + Drop, W: Write, S: Alter + Drop, N: Notes + Witness>(
    reader: R,
    writer: &mut W,
    world: &World<S>,
    notes: &mut N,
) -> Result<Tally, TextFault>
    // Wherever the World is, each item of the text has its turn there, and its answer is written, and nothing else; or a fault comes.
    ensures { (place : Place) → Stands S.Store world.now place →
        AnswersBy AsksAt false place place (R.remaining reader) (W.contents writer.old) (W.contents writer.new) (to_the_end result) }
{
    match answer_until(reader, writer, &mut Questions { world }, false, notes) {
        Ok(course) => Ok(course.tally),
        Err(fault) => Err(fault),
    }
}
