//! The places of the lines of a batch in their text, for messages.

use crate::line::{is_blank_line, is_end_line, next_word};
use std::alloc::Global;

/// Where the lines of the last batch are in their text. It serves messages alone: no contract speaks of it.
///
/// Without memory for a number the later lines of the batch have none.
#[derive(Drop)]
pub struct Marks {
    /// How many lines were read.
    count: u64,
    /// The numbers of the lines of the batch that aren't blank.
    numbers: Vec<u64>,
    /// The batch is over: the next line belongs to another.
    is_over: bool,
    /// The first bad line of the batch, without its end.
    bad: Vec<u8>,
    /// The number of that line.
    bad_line: Option<u64>,
    /// A line after it begins a batch, which is skipped with it.
    swallows: bool,
}

/// Whether the first word of a line is `batch`.
fn begins_batch(line: &[u8]) -> bool {
    next_word(line).is_some_and(|(word, _)| word == b"batch".as_slice())
}

impl Marks {
    /// No line was read.
    pub(crate) fn new(alloc: Global) -> Marks {
        Marks {
            count: 0,
            numbers: Vec::new(alloc),
            is_over: false,
            bad: Vec::new(alloc),
            bad_line: None,
            swallows: false,
        }
    }

    /// Counts one more line that was read, and notes where it is: in the batch, or the first line of the next batch.
    pub(crate) fn add(&mut self, line: &[u8]) {
        self.count = self.count.saturating_add(1);
        if self.is_over {
            self.numbers.clear();
            self.bad.clear();
            self.bad_line = None;
            self.swallows = false;
            self.is_over = false;
        }
        if !self.bad.is_empty() && begins_batch(line) {
            self.swallows = true;
        }
        if is_blank_line(line) {
            return;
        }
        let _added = self.numbers.push(self.count);
        self.is_over = is_end_line(line);
    }

    /// Notes that the batch is bad: the line read last is its first bad line, and is given without its end.
    pub(crate) fn spoil(&mut self, line: Vec<u8>) {
        self.bad = line;
        self.bad_line = Some(self.count);
    }

    /// The number of the line of the text that the batch begins with, from 1; `None` without memory for it.
    pub fn header(&self) -> Option<u64> {
        self.numbers.first().copied()
    }

    /// The number of the line of the text that a call of the batch is on, from 1. The first call is 1. `None` if the batch has no such
    /// call, or without memory for it.
    pub fn call(&self, call: u32) -> Option<u64> {
        self.numbers.get(call as usize).copied()
    }

    /// The first bad line of the batch, without its end; no bytes if the batch has no bad line. A line over its limit is cut after it.
    pub fn bad(&self) -> &[u8] {
        self.bad.as_slice()
    }

    /// The number of the first bad line of the batch in the text, from 1; `None` if the batch has no bad line.
    pub fn bad_line(&self) -> Option<u64> {
        self.bad_line
    }

    /// Whether a batch begins after the first bad line, before the next line `end`: that batch is skipped too.
    pub fn swallows(&self) -> bool {
        self.swallows
    }

    /// How many lines of the text were read.
    pub fn count(&self) -> u64 {
        self.count
    }
}
