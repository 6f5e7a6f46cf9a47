//! Telling of the replies of a text on standard error.

use crate::faults::{put_call_reason, put_header_reason};
use crate::said::Said;
use crate::sentence::refusal_text;
use crate::why::room_reason;
use moo_batch::{Facts, Refusal, Witness};
use moo_text::{Answer, Marks, Notes, Reply};
use moo_world::Batch;
use std::alloc::{AllocError, Global};
use std::io::Eprint;

/// The most replies of a text that are told of.
const MOST_TOLD: u32 = 100;

/// Tells on standard error of each reply that isn't `accepted`, a line each, but of at most 100 of a text. `finish` says how many
/// more there were.
#[derive(Drop)]
pub struct StandardNotes<'a, C> {
    rt: &'a C,
    alloc: Global,
    path: Option<&'a str>,
    /// How many replies were told of.
    told: u32,
    /// How many replies more weren't told of.
    untold: u64,
    /// Why the batch in hand is refused, if that was seen.
    refusal: Option<String>,
}

/// Says where a line is: its number, and its file if the text isn't standard input. The only error is a lack of memory.
fn put_line_place(
    said: &mut Said,
    path: Option<&str>,
    line: Option<u64>,
) -> Result<(), AllocError> {
    said.put(b"moo: ")?;
    if let Some(path) = path {
        said.put(path.as_bytes())?;
        said.put(b": ")?;
    }
    if let Some(line) = line {
        said.put(b"line ")?;
        said.put_count(line)?;
        said.put(b": ")?;
    }
    Ok(())
}

/// Says why the first bad line of a batch is malformed, whether it is the header or not, and that it keeps a batch after it from being run.
/// The only error is a lack of memory.
fn put_bad_line(said: &mut Said, is_header: bool, marks: &Marks) -> Result<(), AllocError> {
    if is_header {
        put_header_reason(said, marks.bad())?;
    } else {
        put_call_reason(said, marks.bad())?;
    }
    if marks.swallows() {
        said.put(b", and the batch after it wasn't run")?;
    }
    Ok(())
}

/// Says that the text ends inside a batch, and why a line of it is malformed, if one is. The only error is a lack of memory.
fn put_truncated(said: &mut Said, marks: &Marks) -> Result<(), AllocError> {
    said.put(b"truncated: the text ends inside the batch that begins here")?;
    let Some(line) = marks.bad_line() else {
        return Ok(());
    };
    said.put(b"; line ")?;
    said.put_count(line)?;
    said.put(b" is malformed: ")?;
    put_bad_line(said, marks.header() == Some(line), marks)
}

/// The number of the line of the text that an answer is about: the first bad line, the call, or the header. `None` if it isn't known.
fn line_of(marks: &Marks, answer: &Answer) -> Option<u64> {
    match answer {
        Answer::Malformed(number) => {
            let further = u64::from(*number).saturating_sub(1);
            Some(marks.header()?.saturating_add(further))
        }
        Answer::Replied(Reply::Refused { call, code: _ }) | Answer::Replied(Reply::Full { call }) =>
            marks.call(*call),
        _ => marks.header(),
    }
}

/// Says an answer in words; if a batch is refused, the words `told`, or the error without them. AllocError: memory ran out.
fn put_answer(
    said: &mut Said,
    marks: &Marks,
    answer: &Answer,
    told: Option<&str>,
) -> Result<(), AllocError> {
    match answer {
        Answer::Replied(Reply::Accepted { seq: _, answers: _ }) => Ok(()),
        Answer::Replied(Reply::Refused { call: _, code }) => {
            said.put(b"refused: ")?;
            said.put(told.unwrap_or(code.name()).as_bytes())
        }
        Answer::Replied(Reply::Full { call }) => {
            said.put(b"full: ")?;
            said.put(room_reason(*call).as_bytes())
        }
        Answer::Replied(Reply::Stale { seq }) => {
            said.put(b"stale: the batch names another number than ")?;
            said.put_count(*seq)?;
            said.put(b", the world's")
        }
        Answer::Replied(Reply::NoMemory) => {
            said.put(b"nomemory: memory ran out in the batch, which changed nothing")
        }
        Answer::Malformed(number) => {
            said.put(b"malformed: ")?;
            put_bad_line(said, *number == 1, marks)
        }
        Answer::Truncated => put_truncated(said, marks),
        Answer::Fault => said.put(b"fault: the store failed in the batch"),
        Answer::Closed => said.put(b"closed: the store failed before the batch"),
    }
}

/// The line that tells of an answer. AllocError: memory ran out.
fn line_text(
    alloc: Global,
    path: Option<&str>,
    marks: &Marks,
    answer: &Answer,
    told: Option<&str>,
) -> Result<String, AllocError> {
    let mut said = Said::new(alloc);
    put_line_place(&mut said, path, line_of(marks, answer))?;
    put_answer(&mut said, marks, answer, told)?;
    said.put(b"\n")?;
    Ok(said.text())
}

impl<'a, C: Eprint> StandardNotes<'a, C> {
    /// Notes on a text, of which nothing is told yet. The path is that of the text; `None` if it is standard input.
    pub fn new(rt: &'a C, alloc: Global, path: Option<&'a str>) -> StandardNotes<'a, C> {
        StandardNotes {
            rt,
            alloc,
            path,
            told: 0,
            untold: 0,
            refusal: None,
        }
    }

    /// Says how many replies more weren't told of.
    pub fn finish(&mut self) {
        if 0 < self.untold {
            let untold = self.untold;
            let _said = eprintln!(self.rt; "moo: {untold} more batches weren't accepted");
            self.untold = 0;
        }
    }
}

impl<'a, C: Eprint> Witness for StandardNotes<'a, C> {
    ghost use Rattle.std.specs.Prelude.{None, ⊤};

    ghost Kept = { Unit {0} };

    ghost kept = { λ _. tt };

    ghost sees = { λ _ _ _ _ _. ⊤ };

    ghost left = { λ _. None };

    /// `None`: there is no bound.
    fn ticks(&self) -> Option<u64> {
        None
    }

    /// Nothing: there is no bound.
    fn leave(&mut self, _ticks: u64) {}

    /// Nothing: without a bound no ticks are spent.
    fn see_spent(&mut self, _call: u32) {}

    /// Whether another reply of the text may still be told of: at most 100 are.
    fn wants_facts(&self) -> bool {
        self.told < MOST_TOLD
    }

    /// Keeps why the batch is refused, in words, for `note`; nothing without facts, or if memory runs out.
    fn see(&mut self, batch: &Batch, refusal: Refusal, facts: Option<&Facts<'_>>) {
        self.refusal = match facts {
            Some(facts) => match refusal_text(self.alloc, batch, refusal, facts) {
                Ok(said) => Some(said.text()),
                Err(_) => None,
            },
            None => None,
        };
    }
}

impl<'a, C: Eprint> Notes for StandardNotes<'a, C> {
    /// Tells of an answer that isn't `accepted`, in a line, or counts it once 100 were told of. Without memory for the line it says
    /// nothing.
    fn note(&mut self, marks: &Marks, answer: &Answer) {
        if let Answer::Replied(Reply::Accepted { seq: _, answers: _ }) = answer {
            return;
        }
        if MOST_TOLD <= self.told {
            self.untold = self.untold.saturating_add(1);
            return;
        }
        self.told = self.told.saturating_add(1);
        let told = self.refusal.take();
        if let Ok(text) = line_text(self.alloc, self.path, marks, answer, told.as_deref()) {
            let _said = eprint!(self.rt; "{text}");
        }
    }
}
