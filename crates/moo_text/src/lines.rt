//! The lines of a text, read in pieces.

ghost use Rattle.std.specs.{Prelude.{◌≡◌, ◌==◌, ◌<◌, ◌≤◌, ◌+◌, ◌++◌, length, take, IfSome, OnOk}, List.{position_from}};
ghost use Rattle.std.specs.Str.Lines.{strip_carriage_return};
ghost use Rattle.moo_text.specs.declared.lines.TheConstants.{LONGEST_TEXT};

use crate::ahead::Ahead;
use crate::fault::TextFault;
use crate::line::LONGEST_LINE;
use crate::marks::Marks;
use std::alloc::{AllocError, Global};
use std::io::Read;

/// The most bytes of a text.
pub const LONGEST_TEXT: usize = 1073741824;

/// The most bytes of a line that are kept: its limit, a carriage return that may be dropped, and a byte by which it is seen to be too long.
const MOST_KEPT: usize = LONGEST_LINE + 2;

/// The place of the first line end, from 0; `None` if there is no such line end.
fn newline_at(text: &[u8]) -> Option<usize>
    ensures first { result ≡ position_from (λ byte. byte == 10) 0 text.now }
    ensures within { IfSome result (λ at. at < length text.now) }
{
    text.iter().position(|byte| *byte == b'\n')
}

/// Appends bytes to a line, as far as it is kept: 262,146 bytes. The only error is a lack of memory.
fn put_kept(line: &mut Vec<u8>, bytes: &[u8]) -> Result<(), AllocError>
    requires { length line.old.items ≤ MOST_KEPT }
    ensures { OnOk result (line.new.items ≡ take MOST_KEPT (line.old.items ++ bytes.now)) }
{
    let count = bytes.len().min(MOST_KEPT - line.len());
    line.extend_from_slice(&bytes[..count])?;
    Ok(())
}

/// Drops the carriage return at the end, if there is one.
fn drop_return(line: &mut Vec<u8>)
    ensures { line.new.items ≡ strip_carriage_return line.old.items }
{
    if line.last() == Some(&b'\r') {
        line.pop();
    }
}

/// A reader of the lines of a text, which reads at most 4,096 bytes at once. Once the reader below has given no bytes, it isn't read again.
#[derive(Drop)]
pub struct LineReader<R> {
    alloc: Global,
    pub(crate) reader: R,
    pub(crate) ahead: Ahead,
    room: usize,
    ended: bool,
    pub(crate) marks: Marks,
    ghost limited: { length ahead + room ≤ LONGEST_TEXT },
}

impl<R: Read> LineReader<R> {
    ghost use Rattle.std.specs.Prelude.{◌≡◌, ◌<◌, true, false, ◌≤◌, [], min, OnOk, IfOk, IfErr, IfNone};
    ghost use Rattle.moo_text.specs.Side.{untouched, lines_side, IsOver};
    ghost use Rattle.moo_text.specs.Given.{ReaderGives, GivesLine, TakesRoom, LinesBreakOff};

    /// The lines that a reader will give, of at most `room` bytes, and at most [`LONGEST_TEXT`]. Nothing is read yet.
    pub fn new(alloc: Global, reader: R, room: usize) -> Self
        ensures { lines_side R.remaining result ≡ untouched (R.remaining reader) (min room LONGEST_TEXT) }
    {
        LineReader {
            alloc,
            reader,
            ahead: Ahead::new(alloc),
            room: room.min(LONGEST_TEXT),
            ended: false,
            marks: Marks::new(alloc),
        }
    }

    /// Reads one more piece, when no bytes are left. False at the end of the text. Read if the reader fails, Long if it gives a byte for
    /// which there is no room, OutOfMemory if memory runs out.
    fn read_piece(&mut self) -> Result<bool, TextFault>
        // No bytes that were read are left unused.
        requires { self.old.ahead ≡ [] }
        // The reader gave the bytes that are unused afterwards, and they took as much of the room.
        ensures gives { OnOk result (ReaderGives (lines_side R.remaining self.old) (lines_side R.remaining self.new) self.new.ahead) }
        ensures room { OnOk result (self.old.room ≡ length self.new.ahead + self.new.room) }
        // A piece takes some of the room.
        ensures falls { IfOk result (λ more. more ≡ true → self.new.room < self.old.room) }
        // At the end of the text the reader has ended, and no byte is left unused.
        ensures end { IfOk result (λ more. more ≡ false → IsOver (lines_side R.remaining self.new)) }
        // At a fault the reader gave one byte more than the room if the fault is Long, else no more than the room; it is never Write.
        ensures cause { IfErr result (LinesBreakOff R.remaining self.old self.new) }
    {
        if self.ended {
            return Ok(false);
        }
        let mut piece = [0u8; 4096];
        // With no room left one byte tells whether the text goes on.
        let most = self.room.clamp(1, piece.len());
        match self.reader.read(&mut piece[..most]) {
            Ok(0) => {
                self.ended = true;
                Ok(false)
            }
            Ok(_) if self.room == 0 => Err(TextFault::Long),
            Ok(count) => {
                self.ahead.fill(&piece[..count])?;
                self.room -= count;
                Ok(true)
            }
            Err(_) => Err(TextFault::Read),
        }
    }

    /// Reads the next line, without its end; `None` at the end of the text. A line over 262,144 bytes is cut after that many and at least
    /// one more. The errors are those of `read_piece`.
    fn read_line(&mut self) -> Result<Option<Vec<u8>>, TextFault>
        // The answer is the first line that the text still had, or the beginning of it by which it is seen to be too long. What follows is
        // still to be read. `None` if the text had no line.
        ensures line { IfOk result (GivesLine R.remaining self.old self.new) }
        // A line takes some of the room, and the end of the text gives none back.
        ensures falls { IfOk result (TakesRoom self.old self.new) }
        // At the end of the text the reader has ended, and no byte is left unused.
        ensures ends { IfOk result (λ line. IfNone line (IsOver (lines_side R.remaining self.new))) }
        // At a fault the reader gave one byte more than the room if the fault is Long, else no more than the room; it is never Write.
        ensures cause { IfErr result (LinesBreakOff R.remaining self.old self.new) }
    {
        let mut line = Vec::new(self.alloc);
        loop {
            match newline_at(self.ahead.bytes()) {
                Some(at) => {
                    put_kept(&mut line, &self.ahead.bytes()[..at])?;
                    self.ahead.skip(at + 1);
                    drop_return(&mut line);
                    return Ok(Some(line));
                }
                None => {
                    put_kept(&mut line, self.ahead.bytes())?;
                    self.ahead.skip(self.ahead.bytes().len());
                }
            }
            if !self.read_piece()? {
                if line.is_empty() {
                    return Ok(None);
                }
                return Ok(Some(line));
            }
        }
    }

    /// Reads the next line, without its end, and counts it in the marks; `None` at the end of the text. A line over 262,144 bytes is cut
    /// after that many and at least one more. Read if the reader fails, Long if the text is longer than its room, OutOfMemory if memory
    /// runs out.
    pub fn next_line(&mut self) -> Result<Option<Vec<u8>>, TextFault>
        // The answer is the first line that the text still had, or the beginning of it by which it is seen to be too long. What follows is
        // still to be read. `None` if the text had no line.
        ensures line { IfOk result (GivesLine R.remaining self.old self.new) }
        // A line takes some of the room, and the end of the text gives none back.
        ensures falls { IfOk result (TakesRoom self.old self.new) }
        // At the end of the text the reader has ended, and no byte is left unused.
        ensures ends { IfOk result (λ line. IfNone line (IsOver (lines_side R.remaining self.new))) }
        // At a fault the reader gave one byte more than the room if the fault is Long, else no more than the room; it is never Write.
        ensures cause { IfErr result (LinesBreakOff R.remaining self.old self.new) }
    {
        let read = self.read_line();
        if let Ok(Some(line)) = &read {
            self.marks.add(line);
        }
        read
    }
}
