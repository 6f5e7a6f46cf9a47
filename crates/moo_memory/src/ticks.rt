//! How often the rows of a draft may be looked up and changed.

ghost use Rattle.std.specs.Prelude.{◌≡◌, ◌<◌, ◌≤◌, ◌+◌, IsTrue};

use std::cell::Cell;

/// No bound: so many ticks nobody spends.
pub const ENDLESS: u64 = u64::MAX;

/// So many rows may be looked up, put or removed: a tick each. Contracts see how many rows are put and removed, of which there are no more
/// than ticks. How many ticks are spent in all is in a cell, which no contract sees.
#[derive(Drop)]
pub struct Ticks {
    pub(crate) most: u64,
    spent: Cell<u64>,
}

impl Ticks {
    /// So many ticks, of which none is spent.
    pub(crate) fn new(most: u64) -> Ticks
        ensures { result.most ≡ most }
    {
        Ticks {
            most,
            spent: Cell::new(0),
        }
    }

    /// Spends so many ticks. Past the greatest number of 64 bits the count stays there.
    pub(crate) fn spend(&self, ticks: u64) {
        self.spent.set(self.spent.get().saturating_add(ticks));
    }

    /// Whether no more ticks were spent than there were.
    pub(crate) fn are_enough(&self) -> bool {
        self.spent.get() <= self.most
    }

    /// Spends a tick on a put or a removal, of which `writes` were made before, and tells whether it may be made.
    pub(crate) fn may_put(&self, writes: u64) -> bool
        ensures { IsTrue result → writes < self.now.most }
    {
        self.spend(1);
        self.are_enough() && writes < self.most
    }

    /// How many ticks are left: the lesser of those that are unspent, and of those that aren't needed for `writes` puts and removals.
    pub(crate) fn left_after(&self, writes: u64) -> u64
        ensures { writes ≤ self.now.most → result + writes ≤ self.now.most }
    {
        let unspent = self.most.saturating_sub(self.spent.get());
        let unwritten = self.most.saturating_sub(writes);
        if unspent < unwritten {
            unspent
        } else {
            unwritten
        }
    }
}
