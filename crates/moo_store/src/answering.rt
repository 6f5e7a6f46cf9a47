//! Answering the items of a text in turn.

ghost use Rattle.std.specs.{Prelude.{◌≡◌, ◌≢◌, ◌⊎◌, ℕ, take, IfOk, IfErr, IfSome, IfNone}, Io.KnownBytes.{Appends}};
ghost use Rattle.moo_world.specs.declared.call.Batch.{Batch};
ghost use Rattle.moo_text.specs.{declared.reply.Answer.{Answer}, Replies.{answer_text}};
ghost use Rattle.moo_store.specs.{Text.{answer_to}, Turns.{Turn}, Stopping.{AnswersBy}};

use crate::course::{Course, stops_after};
use crate::fault::StoreFault;
use crate::tally::Tally;
use moo_batch::Witness;
use moo_text::{Answer, Feed, Marks, Next, Notes, Reply, TextFault, put_answer};
use moo_world::Batch;
use std::alloc::Global;
use std::io::{Read, Write};

/// What answers the batches of a text.
pub(crate) trait Answering {
    // What an answer to a batch says of the implementor that gives it, before and after.
    ghost answered: { Self → Batch → Answer → Self → Type 0 };

    /// The allocator for its text and its answers.
    fn allocator(&self) -> Global;

    /// Answers one batch. If it is refused, the witness sees why.
    fn answer<N: Witness>(&mut self, batch: &Batch, witness: &mut N) -> Answer
        ensures { answered self.old batch.now result self.new };
}

/// The answer that is written to a batch that a World ran or was asked: the reply, `no memory`, `closed` if the World had failed, or else
/// `fault`.
pub(crate) fn answer_to(reply: Result<Reply, StoreFault>) -> Answer
    ensures { result ≡ answer_to reply }
{
    match reply {
        Ok(reply) => Answer::Replied(reply),
        Err(StoreFault::OutOfMemory) => Answer::Replied(Reply::NoMemory),
        Err(StoreFault::Closed) => Answer::Closed,
        Err(_) => Answer::Fault,
    }
}

/// Answers one item of a text: a batch by what answers it, a malformed or cut-off one by itself. None at the end of the text.
fn answer_item<A: Answering, N: Witness>(
    answering: &mut A,
    item: &Next,
    witness: &mut N,
) -> Option<Answer>
    // An answer is that of the item's turn.
    ensures some { IfSome result (λ answer. Turn A.answered answering.old item.now answer answering.new) }
    // It is None only at the end of the text, and then nothing changed.
    ensures none { IfNone result ((item.now ≡ Next.End) × (answering.new ≡ answering.old)) }
{
    match item {
        Next::Batch(batch) => Some(answering.answer(batch, witness)),
        Next::Malformed(number) => Some(Answer::Malformed(*number)),
        Next::Truncated => Some(Answer::Truncated),
        Next::End => None,
    }
}

/// Answers one item of a text, writes the answer, and tells the notes of it. None at the end of the text. Errors: `Write` if the writer
/// fails, and `OutOfMemory`; the batch may have been committed by then.
fn answer_and_note<W: Write, A: Answering, N: Notes + Witness>(
    item: &Next,
    marks: &Marks,
    writer: &mut W,
    answering: &mut A,
    notes: &mut N,
) -> Result<Option<Answer>, TextFault>
    // The item had its turn, and its whole answer was written, and nothing else.
    ensures answers { IfOk result (λ o. IfSome o (λ answer. Turn A.answered answering.old item.now answer answering.new
        × Appends (W.contents writer.old) (W.contents writer.new) (answer_text answer))) }
    // At the end of the text nothing changed and nothing was written.
    ensures ends { IfOk result (λ o. IfNone o
        ((item.now ≡ Next.End) × (answering.new ≡ answering.old) × (writer.new ≡ writer.old))) }
    // At an error the item had its turn too. The beginning of its answer was written if the writer failed, else nothing.
    ensures halts { IfErr result (λ fault. (answer : Answer) × (count : ℕ)
        × Turn A.answered answering.old item.now answer answering.new
        × Appends (W.contents writer.old) (W.contents writer.new) (take count (answer_text answer))
        × ((fault ≡ TextFault.Write) ⊎ (fault ≡ TextFault.OutOfMemory)) × (fault ≢ TextFault.Write → count ≡ 0)) }
{
    let Some(answer) = answer_item(answering, item, notes) else {
        return Ok(None);
    };
    match put_answer(answering.allocator(), writer, &answer) {
        Ok(()) => {
            notes.note(marks, &answer);
            Ok(Some(answer))
        }
        Err(fault) => Err(fault),
    }
}

/// Answers each item of a text, and writes its answer before the next item is read. Then the notes are told of it. If it is to stop, it
/// ends after the first answer that isn't `accepted`. The errors are those of `apply_until`.
pub(crate) fn answer_until<R: Read + Drop, W: Write, A: Answering, N: Notes + Witness>(
    reader: R,
    writer: &mut W,
    answering: &mut A,
    stop: bool,
    notes: &mut N,
) -> Result<Course, TextFault>
    // Each item up to the end of the text, or to the stop, had its turn, and its answer was written, and nothing else; or an error came.
    ensures { AnswersBy A.answered stop answering.old answering.new (R.remaining reader) (W.contents writer.old)
        (W.contents writer.new) result }
{
    let mut feed = Feed::new(answering.allocator(), reader);
    let mut tally = Tally::new();
    loop {
        let item = match feed.next_batch() {
            Ok(item) => item,
            Err(fault) => return Err(fault),
        };
        let answer = match answer_and_note(&item, feed.marks(), writer, answering, notes) {
            Ok(Some(answer)) => answer,
            Ok(None) => {
                return Ok(Course {
                    tally,
                    stopped: false,
                });
            }
            Err(fault) => return Err(fault),
        };
        tally.count(&answer);
        if stops_after(stop, &answer) {
            return Ok(Course {
                tally,
                stopped: true,
            });
        }
    }
}
