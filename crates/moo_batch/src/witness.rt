//! Witnesses, who see how batches are judged.

ghost use Rattle.std.specs.Prelude.{◌≡◌, ℕ, Option, option_map};
ghost use Rattle.moo_batch.specs.{declared.witness.Facts.{Facts}, declared.witness.Refusal.{Refusal}};
ghost use Rattle.moo_world.specs.declared.call.Batch.{Batch};

use moo_disclosure::Disclosure;
use moo_value::ValueList;
use moo_world::{Batch, Reason};

/// Why a batch is refused: its first call that fails, numbered from 1, and the check that failed.
#[derive(Clone, Copy)]
pub struct Refusal {
    pub call: u32,
    /// If the call grants a petition, the place, from 0, of the call that failed among those that the petition holds.
    pub held: Option<u32>,
    pub reason: Reason,
}

/// What a witness is told of the rows when a batch is refused.
#[derive(Drop)]
pub struct Facts<'a> {
    /// Names that the programmer of the batch may list.
    pub names: Disclosure,
    /// What the petition asks for that the call grants, if the petition was there before the batch and the programmer may see it.
    pub petition: Option<&'a ValueList>,
    /// The number that the first petition of the batch gets.
    pub next_petition: u32,
}

/// A witness says how many ticks a batch may take, and sees why the batch is refused, at the check that failed. It never sees rows.
pub trait Witness {
    /// What it keeps of the refusals that it has seen.
    ghost Kept: { Type 0 };

    ghost kept: { Self → Kept };

    /// What it keeps before and after it sees the refusal of a batch.
    ghost sees: { Kept → Batch → Refusal → Option Facts → Kept → Type 0 };

    /// How many ticks are left, or `None` if there is no bound.
    ghost left: { Self → Option ℕ };

    /// How many ticks are left: how often rows may still be looked up, put and removed. `None` if there is no bound.
    fn ticks(&self) -> Option<u64>
        ensures { result ≡ left self.now };

    /// Sets the number of ticks that are left, if there is a bound.
    fn leave(&mut self, ticks: u64)
        // If there is a bound, so many ticks are left.
        ensures left { left self.new ≡ option_map (λ _. ticks) (left self.old) }
        // What it keeps of refusals is as it was.
        ensures kept { kept self.new ≡ kept self.old };

    /// Tells it that the ticks were spent at this call of a batch, numbered from 1.
    fn see_spent(&mut self, call: u32)
        // As many ticks are left as before, and what it keeps of refusals is as it was.
        ensures left { left self.new ≡ left self.old }
        ensures kept { kept self.new ≡ kept self.old };

    /// Whether it wants to be told the facts of a refusal.
    fn wants_facts(&self) -> bool;

    /// Shows it the refusal of a batch. The facts are `None` if it doesn't want them, or memory ran out for them.
    fn see(&mut self, batch: &Batch, refusal: Refusal, facts: Option<&Facts<'_>>)
        // No ticks are taken.
        ensures left { left self.new ≡ left self.old }
        // What it keeps before and after is as `sees` says of the refusal and the facts.
        ensures sees { sees (kept self.old) batch.now refusal (option_map (λ f. f.now) facts.entry) (kept self.new) };
}
