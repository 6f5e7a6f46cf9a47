//! The first connection of which something holds.

ghost use Rattle.std.specs.Prelude.{◌≡◌, ◌<◌, true, false, length, IfSome};
ghost use Rattle.moo_desk.specs.{Choices.{IsLingering, IsReady, IsStuck, IsUnfinished}, Each.{IsFirstPlace, HoldsOfNone}};
ghost use Rattle.moo_desk.specs.Rounds.{IsEndable};

use crate::gate::{Inward, Outward};
use crate::leaving::Leaving;
use crate::slot::Slot;
use std::net::OpenStream;
use std::time::Duration;

/// A question about an item, answered by yes or no.
pub trait Question<T> {
    /// The question, and the item of which it asks.
    ghost asks: { Self → T → Type 0 };

    /// Whether the answer is yes for this item.
    fn holds(&self, item: &T) -> bool
        ensures yes { result ≡ true → asks self.now item.now }
        ensures no { result ≡ false → ¬ (asks self.now item.now) };
}

/// The place of the first item for which the answer to a question is yes. None if no item has that answer.
pub fn first_place<T, Q: Question<T>>(items: &[T], question: &Q) -> Option<usize>
    // The answer is yes at this place and at none before it; or, without a place, at none.
    ensures first { IsFirstPlace (Q.asks question.now) items.now result }
    // The place is inside the list.
    ensures bound { IfSome result (λ place. place < length items.now) }
{
    let mut place = 0;
    while place < items.len() {
        if question.holds(&items[place]) {
            return Some(place);
        }
        place += 1;
    }
    None
}

/// Whether the answer to a question is yes for one of the items at least.
pub fn any_item<T, Q: Question<T>>(items: &[T], question: &Q) -> bool
    // The answer isn't no for all of them.
    ensures yes { result ≡ true → ¬ (HoldsOfNone (Q.asks question.now) items.now) }
    // The answer isn't yes for any of them.
    ensures no { result ≡ false → HoldsOfNone (Q.asks question.now) items.now }
{
    match first_place(items, question) {
        Some(_) => true,
        None => false,
    }
}

/// Is its request unfinished, and may it be given up for another's place?
#[derive(Clone, Copy, Drop)]
pub struct Endable {
    pub now: Duration,
}

impl<R: Inward, W: Outward> Question<Slot<R, W>> for Endable {
    ghost asks = { λ it slot. IsEndable it.now slot };

    fn holds(&self, slot: &Slot<R, W>) -> bool {
        slot.is_endable(self.now)
    }
}

/// Is its request whole, or does nothing more of it come, so that it is to be handed out?
#[derive(Clone, Copy, Drop)]
pub struct Ready;

impl<R: Inward, W: Outward> Question<Slot<R, W>> for Ready {
    ghost asks = { λ _ slot. IsReady slot };

    fn holds(&self, slot: &Slot<R, W>) -> bool {
        slot.rests
    }
}

/// May more of its request come?
#[derive(Clone, Copy, Drop)]
pub struct Unfinished;

impl<R: Inward, W: Outward> Question<Slot<R, W>> for Unfinished {
    ghost asks = { λ _ slot. IsUnfinished slot };

    fn holds(&self, slot: &Slot<R, W>) -> bool {
        !slot.rests
    }
}

/// Does it only wait for its peer's last bytes?
#[derive(Clone, Copy, Drop)]
pub struct Lingerer;

impl<R: Inward + OpenStream, W: Outward + OpenStream> Question<Leaving<R, W>> for Lingerer {
    ghost asks = { λ _ leaving. IsLingering leaving };

    fn holds(&self, leaving: &Leaving<R, W>) -> bool {
        leaving.is_lingering()
    }
}

/// Is its answer held, and did its peer take nothing of it for over 1 second?
#[derive(Clone, Copy, Drop)]
pub struct Stuck {
    pub now: Duration,
}

impl<R: Inward + OpenStream, W: Outward + OpenStream> Question<Leaving<R, W>> for Stuck {
    ghost asks = { λ it leaving. IsStuck it.now leaving };

    fn holds(&self, leaving: &Leaving<R, W>) -> bool {
        leaving.is_stuck(self.now)
    }
}
