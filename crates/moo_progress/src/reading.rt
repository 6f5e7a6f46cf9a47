//! When reading is told of.

ghost use Rattle.std.specs.Prelude.{◌≡◌, ◌+◌, ◌<◌, ◌^◌, ◌↔◌, Some, None, IsTrue};
ghost use Rattle.moo_progress.specs.Reading.{GoesOn, IsDue, IsBegun};

use std::time::{Duration, Instant};

/// For how many seconds of a run nothing is told of reading. Two lines of it are at least as far apart.
const PATIENCE: u64 = 5;

/// After how many seconds without a look at the clock reading begins anew.
const PAUSE: u64 = 60;

/// A run of reads, between which nothing was changed.
#[derive(Clone, Copy, Drop)]
pub(crate) struct Run {
    /// How often the files had been changed when it began.
    pub(crate) changes: u64,
    /// When it began, or was last told of.
    pub(crate) told: Instant,
    /// When the clock was last read.
    pub(crate) looked: Instant,
}

impl Run {
    /// A run of reads that begins now, when the files have been changed so often.
    fn new(now: Instant, changes: u64) -> Run
        ensures { IsBegun result now changes }
    {
        Run {
            changes,
            told: now,
            looked: now,
        }
    }

    /// Whether a read now belongs to the run: nothing was changed since it began, and the clock was read a minute ago at most.
    fn belongs_to_run(self, now: Instant, changes: u64) -> bool
        ensures { IsTrue result ↔ GoesOn self now changes }
    {
        changes == self.changes && now.duration_since(self.looked) <= Duration::from_secs(PAUSE)
    }

    /// Whether the run began, or was last told of, five seconds ago or more.
    fn is_due(self, now: Instant) -> bool
        ensures { IsTrue result ↔ IsDue self now }
    {
        Duration::from_secs(PATIENCE) <= now.duration_since(self.told)
    }
}

/// The reading of one file: the run of reads in which the clock was last read, and the bytes that were read in that run.
#[derive(Clone, Copy, Drop)]
pub(crate) struct Reading {
    pub(crate) run: Option<Run>,
    pub(crate) bytes: u64,
}

impl Reading {
    /// Nothing is read yet.
    pub(crate) fn new() -> Reading
        ensures { (result.run ≡ None) × (result.bytes ≡ 0) }
    {
        Reading {
            run: None,
            bytes: 0,
        }
    }

    /// Adds bytes that were read to those of the run. Their number ends at 2^64 - 1.
    pub(crate) fn add(&mut self, bytes: usize)
        // The run stays.
        ensures run { self.new.run ≡ self.old.run }
        // The bytes are added, as long as the sum fits in 64 bits.
        ensures bytes { self.old.bytes + bytes < 2 ^ 64 → self.new.bytes ≡ self.old.bytes + bytes }
    {
        self.bytes = self.bytes.saturating_add(bytes as u64);
    }

    /// Takes note of a look at the clock, which reads `now`; `changes` is how often the files have been changed so far. Answers how many
    /// bytes this run has read, if the run began or was last told of five seconds ago or more; else None. If something was changed since
    /// the run began, or the clock wasn't read for over a minute, a new run begins, with 0 bytes.
    pub(crate) fn bytes_to_tell(&mut self, now: Instant, changes: u64) -> Option<u64>
        // A read that belongs to no run begins one, and nothing is told.
        ensures begins { ((run : Run) → self.old.run ≡ Some run → ¬ GoesOn run now changes)
            → (result ≡ None) × (self.new.bytes ≡ 0) × ((run : Run) × (self.new.run ≡ Some run) × IsBegun run now changes) }
        // In a run that isn't due nothing is told, and only the look at the clock is noted.
        ensures waits { (run : Run) → self.old.run ≡ Some run → GoesOn run now changes → ¬ IsDue run now
            → (result ≡ None) × (self.new ≡ record self.old { run = Some (record run { looked = now }) }) }
        // In a run that is due its bytes are told, and it is due again after five seconds.
        ensures tells { (run : Run) → self.old.run ≡ Some run → GoesOn run now changes → IsDue run now
            → (result ≡ Some self.old.bytes) × (self.new ≡ record self.old { run = Some (record run { looked = now; told = now }) }) }
    {
        let run = match self.run {
            Some(run) if run.belongs_to_run(now, changes) => run,
            _ => {
                self.run = Some(Run::new(now, changes));
                self.bytes = 0;
                return None;
            }
        };
        if run.is_due(now) {
            self.run = Some(Run {
                told: now,
                looked: now,
                ..run
            });
            Some(self.bytes)
        } else {
            self.run = Some(Run { looked: now, ..run });
            None
        }
    }
}
