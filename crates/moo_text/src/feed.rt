//! The batches of a text, read in pieces.

ghost use Rattle.std.specs.Prelude.{◌≤◌, ◌<◌, ◌≢◌, [], IfOk, IfErr, OnOk};
ghost use Rattle.moo_text.specs.{Given.{GivesFirst, ReadsNext, LinesBreakOff}, Items.{within, skipping}};
ghost use Rattle.moo_text.specs.Side.{lines_side, lines_room, EndsAt};

use crate::call_text::call_of;
use crate::fault::TextFault;
use crate::header::{Header, read_header};
use crate::line::{is_blank_line, is_end_line};
use crate::line_fault::LineFault;
use crate::lines::{LONGEST_TEXT, LineReader};
use crate::marks::Marks;
use crate::next::Next;
use moo_world::{Batch, Calls, MOST_CALLS};
use std::alloc::Global;
use std::io::Read;

/// Reads on after the first bad line of a batch, which is its line `number`, to the next line `end`. Answers Malformed with that number, or
/// Truncated if the text ends first. The errors are those of `next_batch`.
fn skip_batch<R: Read>(
    number: u32,
    bad: Vec<u8>,
    lines: &mut LineReader<R>,
) -> Result<Next, TextFault>
    // The item is the first of the text after the bad line, read as the rest of a batch whose first bad line is line `number`.
    ensures item { IfOk result (GivesFirst (skipping number) R.remaining lines.old lines.new) }
    // No more bytes may still be taken than before.
    ensures falls { OnOk result (lines_room lines.new ≤ lines_room lines.old) }
    // After the end of the text, and after a batch that the end cuts off, nothing is left.
    ensures ends { IfOk result (λ item. EndsAt item (lines_side R.remaining lines.new)) }
    // At a fault the reader gave one byte more than the room if the fault is Long, else no more than the room; it is never Write.
    ensures cause { IfErr result (LinesBreakOff R.remaining lines.old lines.new) }
{
    lines.marks.spoil(bad);
    loop {
        match lines.next_line()? {
            Some(line) => {
                if is_end_line(&line) {
                    return Ok(Next::Malformed(number));
                }
            }
            None => return Ok(Next::Truncated),
        }
    }
}

/// Reads the lines of a batch after its header: calls, 1,000 at most, to the line `end`. The errors are those of `next_batch`.
fn rest_of_batch<R: Read>(
    alloc: Global,
    header: Header,
    lines: &mut LineReader<R>,
) -> Result<Next, TextFault>
    // The item is the first of the text after the header, read as the rest of its batch.
    ensures item { IfOk result (GivesFirst (within header [] 1) R.remaining lines.old lines.new) }
    // No more bytes may still be taken than before.
    ensures falls { OnOk result (lines_room lines.new ≤ lines_room lines.old) }
    // After the end of the text, and after a batch that the end cuts off, nothing is left.
    ensures ends { IfOk result (λ item. EndsAt item (lines_side R.remaining lines.new)) }
    // At a fault the reader gave one byte more than the room if the fault is Long, else no more than the room; it is never Write.
    ensures cause { IfErr result (LinesBreakOff R.remaining lines.old lines.new) }
{
    let mut calls = Vec::new(alloc);
    let mut number = 1;
    loop {
        let Some(line) = lines.next_line()? else {
            return Ok(Next::Truncated);
        };
        number += 1;
        if is_blank_line(&line) {
            continue;
        }
        if is_end_line(&line) {
            return Ok(Next::Batch(Batch {
                programmer: header.programmer,
                at: header.at,
                calls: Calls::from_vec(calls),
            }));
        }
        if MOST_CALLS <= calls.len() {
            return skip_batch(number, line, lines);
        }
        let Some(call) = call_of(alloc, &line)? else {
            return skip_batch(number, line, lines);
        };
        calls.push(call)?;
    }
}

/// Reads the next item of a text: a batch, its first bad line, its want of an end, or the end of the text. Errors: those of `next_batch`.
fn next_item<R: Read>(alloc: Global, lines: &mut LineReader<R>) -> Result<Next, TextFault>
    ensures item { IfOk result (λ item. ReadsNext (lines_side R.remaining lines.old) (lines_side R.remaining lines.new) item) }
    // Each item but the end takes some of the room.
    ensures falls { IfOk result (λ item. item ≢ Next.End → lines_room lines.new < lines_room lines.old) }
    // After the end of the text, and after a batch that the end cuts off, nothing is left.
    ensures ends { IfOk result (λ item. EndsAt item (lines_side R.remaining lines.new)) }
    // At a fault the reader gave one byte more than the room if the fault is Long, else no more than the room; it is never Write.
    ensures cause { IfErr result (LinesBreakOff R.remaining lines.old lines.new) }
{
    loop {
        let Some(line) = lines.next_line()? else {
            return Ok(Next::End);
        };
        if is_blank_line(&line) {
            continue;
        }
        if is_end_line(&line) {
            lines.marks.spoil(line);
            return Ok(Next::Malformed(1));
        }
        match read_header(alloc, &line) {
            Ok(header) => return rest_of_batch(alloc, header, lines),
            Err(LineFault::OutOfMemory) => return Err(TextFault::OutOfMemory),
            Err(_) => return skip_batch(1, line, lines),
        }
    }
}

/// The batches of a text that a reader gives, read in pieces.
#[derive(Drop)]
pub struct Feed<R> {
    alloc: Global,
    pub(crate) lines: LineReader<R>,
    pub(crate) fault: Option<TextFault>,
}

impl<R: Read> Feed<R> {
    ghost use Rattle.std.specs.Prelude.{◌≡◌, ◌≢◌, ◌<◌, min, Some, None, Err, IfOk, IfErr, IfSome, IfNone, OnOk};
    ghost use Rattle.moo_text.specs.Side.{untouched, feed_side, feed_room, EndsAt};
    ghost use Rattle.moo_text.specs.Given.{ReadsNext, BreaksOff};

    /// The batches of a text that a reader will give, of at most 1,073,741,824 bytes. Nothing is read yet.
    pub fn new(alloc: Global, reader: R) -> Self
        // Nothing is read yet, and at most 1,073,741,824 bytes may be.
        ensures side { feed_side R.remaining result ≡ untouched (R.remaining reader) LONGEST_TEXT }
        // At most 1,073,741,824 bytes may be taken.
        ensures room { feed_room result ≡ LONGEST_TEXT }
        // There was no fault.
        ensures fresh { result.fault ≡ None }
    {
        Feed::with_room(alloc, reader, LONGEST_TEXT)
    }

    /// The batches of a text that a reader will give, of at most `room` bytes, and at most [`LONGEST_TEXT`]. Nothing is read yet.
    pub(crate) fn with_room(alloc: Global, reader: R, room: usize) -> Self
        // Nothing is read yet, and at most `room` bytes may be, and at most [`LONGEST_TEXT`].
        ensures side { feed_side R.remaining result ≡ untouched (R.remaining reader) (min room LONGEST_TEXT) }
        ensures room { feed_room result ≡ min room LONGEST_TEXT }
        // There was no fault.
        ensures fresh { result.fault ≡ None }
    {
        Feed {
            alloc,
            lines: LineReader::new(alloc, reader, room),
            fault: None,
        }
    }

    /// What comes next in the text: a batch, the number of the first bad line of one, that the text ends inside one, or its end. A line of
    /// spaces and tabs is skipped. Read if the reader fails, Long if the text goes on after 1,073,741,824 bytes, OutOfMemory if memory runs
    /// out. After a fault each call gives that fault again, and reads nothing. A reader that has given no bytes isn't read again.
    pub fn next_batch(&mut self) -> Result<Next, TextFault>
        // The answer is the next item of the unused bytes and of those that the reader gave meanwhile, which took as much of the room.
        ensures next { IfOk result (λ item. ReadsNext (feed_side R.remaining self.old) (feed_side R.remaining self.new) item) }
        // The fault is kept.
        ensures fault { IfErr result (λ fault. self.new.fault ≡ Some fault) }
        // Without a fault none is kept.
        ensures works { OnOk result (self.new.fault ≡ None) }
        // After a fault the result is that fault again.
        ensures repeats { IfSome self.old.fault (λ fault. result ≡ Err fault) }
        // After a fault nothing is read or changed.
        ensures rests { IfSome self.old.fault (λ _. self.new ≡ self.old) }
        // Each item but the end takes some of the room.
        ensures falls { IfOk result (λ item. item ≢ Next.End → feed_room self.new < feed_room self.old) }
        // After the end of the text, and after a batch that the end cuts off, nothing is left.
        ensures ends { IfOk result (λ item. EndsAt item (feed_side R.remaining self.new)) }
        // At a first fault the reader gave one byte more than the room if the fault is Long, else no more than the room; it is never Write.
        ensures cause { IfNone self.old.fault (IfErr result (λ fault.
            BreaksOff (feed_side R.remaining self.old) (feed_side R.remaining self.new) fault)) }
    {
        if let Some(fault) = self.fault {
            return Err(fault);
        }
        let result = next_item(self.alloc, &mut self.lines);
        self.fault = result.as_ref().err().copied();
        result
    }

    /// On which lines of the text the last item is, for messages.
    pub fn marks(&self) -> &Marks {
        &self.lines.marks
    }
}
