//! A run that stops at each call of a file in turn, and what is found after each stop.

use crate::files::{Kept, Loss, Which, bytes_of, files_after_loss, stopping_files, whole};
use std::alloc::Global;
use std::test::Fail;
use test_visits::{Seen, Task, visit_fused};

/// A run on prepared files, what is written when it is done, and the dumps of the world before it and after it. Before `Init`
/// there is no world, and no dump.
#[derive(Drop)]
pub(crate) struct Run<'a> {
    kept: Kept,
    task: Task<'a>,
    reply: &'a [u8],
    pub(crate) old: Vec<u8>,
    pub(crate) new: Vec<u8>,
}

/// Does a task on files that don't stop, and answers what is written, and the files.
pub(crate) fn do_without_stop(
    alloc: Global,
    files: &Kept,
    task: Task<'_>,
) -> Result<(Vec<u8>, Kept), Fail> {
    let mut seen = Seen::new(alloc);
    let behind = visit_fused(alloc, whole(alloc, files)?, task, &mut seen);
    if !seen.is_done || !seen.is_closed {
        return Err(Fail::from("a task without a stop failed"));
    }
    Ok((seen.written, bytes_of(alloc, &behind)?))
}

/// Files in which statements were run, and nothing else.
pub(crate) fn tables_of(alloc: Global, statements: &str) -> Result<Kept, Fail> {
    let none = Kept {
        log: Vec::new(alloc),
        db: Vec::new(alloc),
    };
    let (_, behind) = do_without_stop(alloc, &none, Task::Statements(statements))?;
    Ok(behind)
}

/// The files of a new world on which a text was run.
pub(crate) fn files_after(alloc: Global, text: &[u8]) -> Result<Kept, Fail> {
    let none = Kept {
        log: Vec::new(alloc),
        db: Vec::new(alloc),
    };
    let (_, new) = do_without_stop(alloc, &none, Task::Init)?;
    let (_, behind) = do_without_stop(alloc, &new, Task::Apply(text))?;
    Ok(behind)
}

/// A run of a task on the files of a world, with the worlds before and after it. An error if a run without a stop doesn't write this reply.
pub(crate) fn run_on<'a>(
    alloc: Global,
    kept: Kept,
    task: Task<'a>,
    reply: &'a [u8],
) -> Result<Run<'a>, Fail> {
    let (old, _) = do_without_stop(alloc, &kept, Task::Look)?;
    let (written, behind) = do_without_stop(alloc, &kept, task)?;
    if written.as_slice() != reply {
        return Err(Fail::from("a run without a stop is answered otherwise"));
    }
    let (new, _) = do_without_stop(alloc, &behind, Task::Look)?;
    Ok(Run {
        kept,
        task,
        reply,
        old,
        new,
    })
}

/// A run that makes a new world.
pub(crate) fn making<'a>(alloc: Global) -> Result<Run<'a>, Fail> {
    let none = Kept {
        log: Vec::new(alloc),
        db: Vec::new(alloc),
    };
    let (_, behind) = do_without_stop(alloc, &none, Task::Init)?;
    let (new, _) = do_without_stop(alloc, &behind, Task::Look)?;
    Ok(Run {
        kept: none,
        task: Task::Init,
        reply: b"",
        old: Vec::new(alloc),
        new,
    })
}

/// What a stop left.
#[derive(Clone, Copy, Drop)]
enum Found {
    /// The world before the run.
    Old,
    /// The world after it.
    New,
    /// Neither, or not that of an acknowledged run.
    Wrong,
}

/// What one round came to.
#[derive(Clone, Copy, Drop)]
struct Round {
    /// It ended without a stop.
    is_done: bool,
    found: Found,
}

/// Which world a stop left, by a look at it. After a run that was acknowledged only the new one is right.
fn world_found(run: &Run<'_>, is_acknowledged: bool, look: &Seen) -> Found {
    if look.is_done && look.written == run.new {
        Found::New
    } else if look.is_done == !run.old.is_empty() && look.written == run.old && !is_acknowledged {
        Found::Old
    } else {
        Found::Wrong
    }
}

/// Whether a task was acknowledged: its reply is written; of a task without one, that it was done.
fn is_acknowledged(run: &Run<'_>, seen: &Seen) -> bool {
    if run.reply.is_empty() {
        seen.is_done
    } else {
        seen.written.as_slice() == run.reply
    }
}

/// One round: the task is done while one of the files stops after so many calls, and then the world is looked at. If none is there, one has
/// to be made.
fn one_round(
    alloc: Global,
    run: &Run<'_>,
    which: Which,
    loss: Loss,
    calls: u64,
) -> Result<Round, Fail> {
    let mut seen = Seen::new(alloc);
    let files = stopping_files(alloc, &run.kept, which, calls)?;
    let files = files_after_loss(alloc, visit_fused(alloc, files, run.task, &mut seen), loss)?;
    let mut look = Seen::new(alloc);
    let files = visit_fused(alloc, files, Task::Look, &mut look);
    let mut found = world_found(run, is_acknowledged(run, &seen), &look);
    if !look.is_done {
        // No world is there, which is made now.
        let mut again = Seen::new(alloc);
        let _files = visit_fused(alloc, files, Task::Init, &mut again);
        if !again.is_done {
            found = Found::Wrong;
        }
    }
    Ok(Round {
        is_done: seen.is_done && seen.is_closed,
        found,
    })
}

/// How many stops there are, and what they left.
#[derive(Clone, Copy, Debug, Drop)]
pub(crate) struct Counts {
    /// The world before the run.
    pub(crate) old: u32,
    /// The world after it.
    pub(crate) new: u32,
    /// Neither, or not that of an acknowledged run.
    pub(crate) wrong: u32,
    /// How often a round without a stop came, and found the new world.
    pub(crate) ended: u32,
}

/// Adds one to a number, up to 4,294,967,295.
fn count(number: &mut u32) {
    *number = number.saturating_add(1);
}

impl Counts {
    /// The counts before the first round.
    pub(crate) fn new() -> Counts {
        Counts {
            old: 0,
            new: 0,
            wrong: 0,
            ended: 0,
        }
    }

    /// Adds the counts of other rounds.
    pub(crate) fn add(&mut self, other: &Counts) {
        self.old = self.old.saturating_add(other.old);
        self.new = self.new.saturating_add(other.new);
        self.wrong = self.wrong.saturating_add(other.wrong);
        self.ended = self.ended.saturating_add(other.ended);
    }

    /// Counts one round. One without a stop has to find the new world.
    fn note(&mut self, round: Round) {
        match round {
            Round {
                is_done: true,
                found: Found::New,
            } => count(&mut self.ended),
            Round {
                is_done: true,
                found: _,
            } => count(&mut self.wrong),
            Round {
                is_done: false,
                found: Found::Old,
            } => count(&mut self.old),
            Round {
                is_done: false,
                found: Found::New,
            } => count(&mut self.new),
            Round {
                is_done: false,
                found: Found::Wrong,
            } => count(&mut self.wrong),
        }
    }
}

/// The rounds of one file and one loss: a stop at the first call, at the second and so on, until a round is done without one.
pub(crate) fn each_round(
    alloc: Global,
    run: &Run<'_>,
    which: Which,
    loss: Loss,
) -> Result<Counts, Fail> {
    let mut counts = Counts::new();
    for calls in 0..2000 {
        let round = one_round(alloc, run, which, loss, calls)?;
        counts.note(round);
        if round.is_done {
            break;
        }
    }
    Ok(counts)
}
