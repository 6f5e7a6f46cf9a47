//! The connections that a desk holds: those whose requests are gathered, those whose answers are sent, and the losses that were noted.

ghost use Rattle.std.specs.Prelude.{◌≡◌, ◌⊎◌, ◌+◌, ◌≤◌, ◌<◌, ⊤, [], true, false, length, min, Some, None, IfOk};
ghost use Rattle.moo_desk.specs.{declared.leaving.Stage.TheVariants.{Done, Lost}, Deeds.{LetsGo, Goes, HoldsNone, book_of}};
ghost use Rattle.moo_desk.specs.Choices.{CutsAt, EndsOne, HasNoSpare, HasWhole, IsCrowdedOut, IsLingering, IsReady, IsSpared, IsUnfinished};
ghost use Rattle.moo_desk.specs.{Choices.{Relieves, count_of}, Each.{Each, IsFirstPlace, HoldsOfNone, OfFirst, TurnsFirst}};
ghost use Rattle.moo_desk.specs.{Exchange.{TakesSlot}, Rounds.{IsAnswerWokenFor, IsEndable, IsTimed, IsWokenFor, ReadsDue, gathered_of}};

use crate::first::{Endable, Lingerer, Ready, Stuck, Unfinished, any_item, first_place};
use crate::gate::{Inward, Outward};
use crate::leaving::Leaving;
use crate::losses::Losses;
use crate::rounds::{
    BUDGET, all_unsent_bytes, gather_all, turn_leaving, wake_all_leaving, wake_all_slots,
    wake_leaving, wake_slots,
};
use crate::slot::Slot;
use moo_arrivals::Cause;
use moo_http_request::Routes;
use std::alloc::{AllocError, Global};
use std::net::OpenStream;
use std::time::Duration;

/// How many connections may be open at once.
pub const MOST: usize = 64;

/// After how many milliseconds an unfinished request may be ended if 64 connections are held. While answers are sent no wait is longer.
pub const GRACE: u64 = 200;

/// The connections that a desk holds, and the losses that it noted.
#[derive(Drop)]
pub struct Held<R: Inward, W: Outward> {
    /// Those whose requests are gathered, in the order in which they came.
    pub slots: Vec<Slot<R, W>>,
    /// Those whose requests were judged.
    pub leaving: Vec<Leaving<R, W>>,
    pub losses: Losses,
}

impl<R: Inward + OpenStream + Drop, W: Outward + OpenStream + Drop> Held<R, W> {
    /// No connections, and room for the 64 that may be held and one more. The only error is a lack of memory.
    pub fn new(alloc: Global) -> Result<Held<R, W>, AllocError>
        ensures { IfOk result (λ held. HoldsNone held) }
    {
        Ok(Held {
            slots: Vec::with_capacity(alloc, MOST + 1)?,
            leaving: Vec::with_capacity(alloc, MOST + 1)?,
            losses: Losses::new(alloc, 2 * MOST)?,
        })
    }

    /// How many connections are held.
    fn count(&self) -> usize
        ensures { result ≡ min (length self.now.slots.items + length self.now.leaving.items) usize.MAX }
    {
        self.slots.len().saturating_add(self.leaving.len())
    }

    /// Whether 64 connections or more are held, so that another has no place.
    pub fn is_full(&self) -> bool
        ensures full { result ≡ true → MOST ≤ length self.now.slots.items + length self.now.leaving.items }
        ensures room { result ≡ false → length self.now.slots.items + length self.now.leaving.items < MOST }
    {
        self.count() >= MOST
    }

    /// The place of the oldest unfinished request that may be ended for another's place: it came over 200 milliseconds ago. None if none
    /// may.
    fn first_endable(&self, now: Duration) -> Option<usize>
        ensures { IsFirstPlace (IsEndable now) self.now.slots.items result }
    {
        first_place(&self.slots, &Endable { now })
    }

    /// The place of the first connection that only waits for its peer's last bytes. None if none does.
    fn first_lingering(&self) -> Option<usize>
        ensures { IsFirstPlace IsLingering self.now.leaving.items result }
    {
        first_place(&self.leaving, &Lingerer)
    }

    /// Whether a connection can be ended to make room for another.
    pub fn has_spare(&self, now: Duration) -> bool
        // One lingers, or an unfinished request came over 200 milliseconds ago.
        ensures yes { result ≡ true → ¬ (HasNoSpare now self.now) }
        // None lingers, and no unfinished request came that long ago.
        ensures no { result ≡ false → HasNoSpare now self.now }
    {
        any_item(&self.leaving, &Lingerer) || any_item(&self.slots, &Endable { now })
    }

    /// If more than 64 connections are held, ends one that lingers, or else the oldest unfinished request that may be ended, or else none.
    /// `now` is the time of the monotonic clock.
    pub fn shed(&mut self, now: Duration)
        // No connection comes; more may be gathered and sent. A connection goes only once all of its answer was sent, or its loss noted.
        ensures all { Goes self.old self.new }
        // While 64 at most are held none is ended.
        ensures few { count_of self.old ≤ MOST → self.new ≡ self.old }
        // Else the first that lingers becomes `Done`, or the oldest unfinished request that may be ended is given up, or none can be.
        ensures full { MOST < count_of self.old → EndsOne now self.old self.new }
        // When each request came stays; when bytes of it came last, and `looked`, stay or become `now`.
        ensures times { Each (IsTimed now) self.old.slots.items self.new.slots.items }
    {
        if self.count() <= MOST {
            return;
        }
        if let Some(place) = self.first_lingering() {
            self.cut_answer(place);
        } else if let Some(place) = self.first_endable(now) {
            self.cut_request(place, now);
        }
    }

    /// Gives up the answer at this place of `leaving`, if there is one, since another connection needs the room.
    fn cut_answer(&mut self, place: usize)
        // No connection comes; more may be gathered and sent. A connection goes only once all of its answer was sent, or its loss noted.
        ensures all { Goes self.old self.new }
        ensures slots { self.new.slots ≡ self.old.slots }
        // The answer at this place is given up as crowded out, and the others stay.
        ensures cuts { place < length self.old.leaving.items → CutsAt place self.old.leaving.items self.new.leaving.items }
    {
        if place < self.leaving.len() {
            self.leaving[place].give_up(Cause::Crowded);
        }
    }

    /// Gives up the request at this place of `slots`, if it may be ended, since another connection needs the room. It isn't read any more,
    /// and is to be handed out.
    fn cut_request(&mut self, place: usize, now: Duration)
        // No connection comes; more may be gathered and sent. A connection goes only once all of its answer was sent, or its loss noted.
        ensures all { Goes self.old self.new }
        // When each request came stays; when bytes of it came last, and `looked`, stay or become `now`.
        ensures times { Each (IsTimed now) self.old.slots.items self.new.slots.items }
        // If it is the place of the oldest request that may be ended, that request is given up, and the others stay.
        ensures cuts { IsFirstPlace (IsEndable now) self.old.slots.items (Some place) →
            TurnsFirst (IsEndable now) IsCrowdedOut self.old.slots.items self.new.slots.items }
        ensures answers { self.new.leaving ≡ self.old.leaving }
    {
        if place < self.slots.len() && self.slots[place].is_endable(now) {
            self.slots[place].give_up(Cause::Crowded, now);
        }
    }

    /// Steps each connection whose request was judged and that is due, and lets go of those that are over; whether anything went, came or
    /// was let go. `now` is the time of the monotonic clock.
    pub fn send_all(&mut self, now: Duration) -> bool
        // No connection comes; more may be gathered and sent. A connection goes only once all of its answer was sent, or its loss noted.
        ensures { Goes self.old self.new }
    {
        let mut changed = turn_leaving(&mut self.leaving, now);
        for _ in 0..=MOST {
            if !self.end_one() {
                return changed;
            }
            changed = true;
        }
        changed
    }

    /// Lets go of the first connection that is over, and notes the loss of its answer if it was lost; whether one was over.
    fn end_one(&mut self) -> bool
        // No connection comes; more may be gathered and sent. A connection goes only once all of its answer was sent, or its loss noted.
        ensures { Goes self.old self.new }
    {
        let Some(place) = self.leaving.iter().position(|it| it.is_over()) else {
            return false;
        };
        if place < self.leaving.len() && self.leaving[place].is_over() {
            let over = self.leaving.remove(place);
            self.note_loss(over);
            return true;
        }
        false
    }

    /// Notes the loss of a connection that is over, if its answer was lost.
    pub fn note_loss(&mut self, over: Leaving<R, W>)
        // If nothing more is done with it, it is let go: all of its answer was sent, or its loss is noted, once.
        ensures ends { (over.stage ≡ Done) ⊎ ((cause : Cause) × (over.stage ≡ Lost cause)) →
            LetsGo over self.old.losses self.new.losses }
        // The requests and the answers that are held stay.
        ensures same { (self.new.leaving ≡ self.old.leaving) × (self.new.slots ≡ self.old.slots) }
    {
        if let Some(loss) = over.loss() {
            self.losses.add(loss);
        }
    }

    /// Gives up each connection whose request was judged, and holds none of them after that. What its peer hasn't got of its answer is
    /// lost, for the cause Late.
    pub fn give_up_all(&mut self)
        // No connection comes; more may be gathered and sent. A connection goes only once all of its answer was sent, or its loss noted.
        ensures all { Goes self.old self.new }
        // No answer is held any more.
        ensures none { self.new.leaving.items ≡ [] }
    {
        while let Some(last) = self.leaving.pop() {
            let mut lost = last;
            lost.give_up(Cause::Late);
            self.note_loss(lost);
        }
    }

    /// Whether a connection is to be handed out: its request is whole, or nothing more of it comes, and less than 32 MiB of answers are
    /// held beside the largest.
    pub fn has_whole(&self) -> bool
        ensures yes { result ≡ true → HasWhole self.now }
        ensures no { result ≡ false → ¬ (HasWhole self.now) }
    {
        all_unsent_bytes(&self.leaving) < BUDGET && self.is_any_ready()
    }

    /// Whether the request of a connection that is held is whole, or nothing more of it comes.
    fn is_any_ready(&self) -> bool
        ensures yes { result ≡ true → ¬ (HoldsOfNone IsReady self.now.slots.items) }
        ensures no { result ≡ false → HoldsOfNone IsReady self.now.slots.items }
    {
        any_item(&self.slots, &Ready)
    }

    /// Takes the connection that came first of those whose request is whole, or of which nothing more comes. None if no connection is
    /// ready, and while 32 MiB of answers or more are held beside the largest.
    pub fn next_whole(&mut self) -> Option<Slot<R, W>>
        ensures { TakesSlot (book_of self.old) result (book_of self.new) }
    {
        if all_unsent_bytes(&self.leaving) >= BUDGET {
            return None;
        }
        let place = first_place(&self.slots, &Ready)?;
        Some(self.slots.remove(place))
    }

    /// For how long the oldest unfinished request can't be ended yet. None if it can be, or if no request is unfinished.
    pub fn spared_time(&self, now: Duration) -> Option<Duration>
        // It is the time until 201 milliseconds after the oldest unfinished request came; none if that is past.
        ensures oldest { OfFirst IsUnfinished (IsSpared now result) self.now.slots.items }
        // Without an unfinished request there is no such time.
        ensures none { HoldsOfNone IsUnfinished self.now.slots.items → result ≡ None }
    {
        let Some(place) = first_place(&self.slots, &Unfinished) else {
            return None;
        };
        let age = now.saturating_sub(self.slots[place].since);
        let left = Duration::from_millis(GRACE + 1).saturating_sub(age);
        if left.is_zero() { None } else { Some(left) }
    }

    /// Gathers what is there of each request that is due, or of the first unfinished one alone while 32 MiB of requests or more are
    /// gathered; whether anything changed.
    pub fn gather(&mut self, routes: &Routes, now: Duration) -> bool
        // No connection comes; more may be gathered and sent. A connection goes only once all of its answer was sent, or its loss noted.
        ensures all { Goes self.old self.new }

        // Each request that is due is read, or is to be handed out after this; from 32 MiB on only those up to the first unfinished one.
        ensures reads { ReadsDue (gathered_of self.old.slots.items < BUDGET) self.old.slots.items self.new.slots.items }
        // When each request came stays. If bytes of it come, `now` is when they came last. `looked` stays or becomes `now`.
        ensures times { Each (IsTimed now) self.old.slots.items self.new.slots.items }
    {
        gather_all(&mut self.slots, routes, now)
    }

    /// Has the next round look at each connection that has this mark.
    pub fn wake_at(&mut self, mark: usize)
        // No connection comes; more may be gathered and sent. A connection goes only once all of its answer was sent, or its loss noted.
        ensures all { Goes self.old self.new }
        // Each request with this mark is due, and those that were due stay so.
        ensures wakes { Each (IsWokenFor (λ it. it ≡ mark)) self.old.slots.items self.new.slots.items }
        // Each answer with this mark is due, and those that were due stay so. Nothing else of an answer changes.
        ensures answers { Each (IsAnswerWokenFor (λ it. it ≡ mark)) self.old.leaving.items self.new.leaving.items }
    {
        wake_slots(&mut self.slots, mark);
        wake_leaving(&mut self.leaving, mark);
    }

    /// Has the next round look at each connection.
    pub fn wake_all(&mut self)
        // No connection comes; more may be gathered and sent. A connection goes only once all of its answer was sent, or its loss noted.
        ensures all { Goes self.old self.new }
        // Each request is due.
        ensures wakes { Each (IsWokenFor (λ _. ⊤)) self.old.slots.items self.new.slots.items }
        // Each answer is due. Nothing else of an answer changes.
        ensures answers { Each (IsAnswerWokenFor (λ _. ⊤)) self.old.leaving.items self.new.leaving.items }
    {
        wake_all_slots(&mut self.slots);
        wake_all_leaving(&mut self.leaving);
    }

    /// While 32 MiB of answers or more are held beside the largest, and a request is to be handed out, gives up the first answer of which
    /// its peer took nothing for over 1 second.
    pub fn relieve(&mut self, now: Duration)
        // No connection comes; more may be gathered and sent. A connection goes only once all of its answer was sent, or its loss noted.
        ensures all { Goes self.old self.new }
        // No request changes.
        ensures slots { self.new.slots ≡ self.old.slots }
        // If 32 MiB of answers or more are held beside the largest, and a request is to be handed out, the first answer that is stuck is
        // given up. Else nothing changes.
        ensures relieves { Relieves now self.old self.new }
    {
        if all_unsent_bytes(&self.leaving) < BUDGET || !self.is_any_ready() {
            return;
        }
        if let Some(place) = first_place(&self.leaving, &Stuck { now }) {
            self.cut_answer(place);
        }
    }
}
