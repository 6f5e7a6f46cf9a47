//! Counting the answers to a text.

ghost use Rattle.std.specs.Prelude.{◌≡◌, ◌<◌, ◌+◌, ◌^◌, cond};
ghost use Rattle.moo_store.specs.Turns.{is_batch, is_lost_answer};

use moo_text::Answer;

/// How many batches of a text were read whole, and how many of them were answered `fault` or `closed`.
#[derive(Clone, Copy)]
pub struct Tally {
    pub batches: u64,
    pub lost: u64,
}

impl Tally {
    /// The tally of no answers.
    pub(crate) fn new() -> Tally
        ensures { (result.batches ≡ 0) × (result.lost ≡ 0) }
    {
        Tally {
            batches: 0,
            lost: 0,
        }
    }

    /// Counts an answer: as a batch, if one was read whole, and as lost, if it is `fault` or `closed`.
    pub(crate) fn count(&mut self, answer: &Answer)
        // Fewer than 2^63 batches were counted; a text has no more.
        requires room { self.old.batches < 2 ^ 63 }
        // Fewer than 2^63 were counted as lost.
        requires room_lost { self.old.lost < 2 ^ 63 }
        ensures batches { self.new.batches ≡ self.old.batches + cond (is_batch answer.now) 1 0 }
        ensures lost { self.new.lost ≡ self.old.lost + cond (is_lost_answer answer.now) 1 0 }
    {
        match answer {
            Answer::Replied(_) => self.batches += 1,
            Answer::Fault | Answer::Closed => {
                self.batches += 1;
                self.lost += 1;
            }
            Answer::Malformed(_) | Answer::Truncated => {}
        }
    }
}
