//! Telling nobody.

use moo_batch::{Facts, Refusal, Witness};
use moo_text::{Answer, Marks, Notes};
use moo_world::Batch;

/// Nobody is told how batches are answered, or why they are refused.
#[derive(Clone, Copy)]
pub struct NoNotes;

impl Witness for NoNotes {
    ghost use Rattle.std.specs.Prelude.{None, ⊤};

    ghost Kept = { Unit {0} };

    ghost kept = { λ _. tt };

    ghost sees = { λ _ _ _ _ _. ⊤ };

    ghost left = { λ _. None };

    fn ticks(&self) -> Option<u64> {
        None
    }

    fn leave(&mut self, _ticks: u64) {}

    fn see_spent(&mut self, _call: u32) {}

    fn wants_facts(&self) -> bool {
        false
    }

    fn see(&mut self, _batch: &Batch, _refusal: Refusal, _facts: Option<&Facts<'_>>) {}
}

impl Notes for NoNotes {
    fn note(&mut self, _marks: &Marks, _answer: &Answer) {}
}
