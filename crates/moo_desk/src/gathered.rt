//! A reader whose bytes are gathered before they are read.

ghost use Rattle.std.specs.{Prelude.{◌≡◌, ◌≤◌, ◌<◌, ◌++◌, ℕ, List, [], length, drop}, Io.KnownBytes.{Keeps, prepend_known}};

use crate::gate::Inward;
use moo_arrivals::Cause;
use moo_http_request::Incoming;
use std::alloc::Global;
use std::io::{Error, ErrorKind, Read, Result};

/// How many bytes are taken at once.
const PIECE: usize = 4096;

/// What came of filling.
#[derive(Clone, Copy, Drop)]
pub enum Filled {
    /// Bytes came.
    Grew,
    /// None are there now.
    Waits,
    /// The peer has ended.
    Ended,
    /// The reader failed, or memory ran out.
    Failed(Cause),
}

/// What still comes of a request.
#[derive(Clone, Copy, PartialEq, Eq, Drop)]
pub enum Coming {
    /// More may come.
    More,
    /// Nothing: the peer has ended.
    Nothing,
    /// Nothing more is read, though it may come: the request was given up.
    Unread,
}

/// A reader, and the bytes that it gave: those that were read, up to `at`, and then those that weren't read yet.
#[derive(Drop)]
pub struct Gathered<R> {
    pub reader: R,
    pub bytes: Vec<u8>,
    pub at: usize,
    pub coming: Coming,
    ghost inside: { at ≤ length bytes.items },
}

impl<R> Gathered<R> {
    /// A reader of which nothing was gathered yet, and more may come.
    pub fn new(alloc: Global, reader: R) -> Gathered<R>
        ensures { (result.reader ≡ reader) × (result.bytes.items ≡ []) × (result.at ≡ 0) × (result.coming ≡ Coming.More) }
    {
        Gathered {
            reader,
            bytes: Vec::new(alloc),
            at: 0,
            coming: Coming::More,
        }
    }
}

impl<R: Inward> Gathered<R> {
    ghost use Rattle.moo_desk.specs.Filling.{Fills};

    /// Gathers up to 4,096 bytes of what the reader has now, and no more than `limit` in all. If none came it tells why: none are there
    /// now, the peer has ended, the reader failed, or memory ran out.
    pub fn fill(&mut self, limit: usize) -> Filled
        // There is room for one byte at least.
        requires { length self.old.bytes.items < limit }
        // The bytes gathered and not read yet, and then those that the reader still has, are the same bytes as before.
        ensures invisible { Keeps (prepend_known (drop self.old.at self.old.bytes.items) (R.remaining self.old.reader))
            (prepend_known (drop self.new.at self.new.bytes.items) (R.remaining self.new.reader)) }
        // No more than `limit` bytes are gathered in all.
        ensures bound { length self.new.bytes.items ≤ limit }
        // What was gathered stays, and more may follow it.
        ensures grows { (more : List ℕ) × (self.new.bytes.items ≡ self.old.bytes.items ++ more) }
        // Whether more may come isn't decided here, and the peer is the same.
        ensures same { (self.new.coming ≡ self.old.coming) × (R.peer self.new.reader ≡ R.peer self.old.reader) }
        // The reader was read once, unless memory ran out, and what it gave is what is told.
        ensures fills { Fills R.reads self.old self.new result }
    {
        let mut piece = [0; PIECE];
        let room = (limit - self.bytes.len()).min(piece.len());
        if self.bytes.reserve(room).is_err() {
            return Filled::Failed(Cause::OutOfMemory);
        }
        match self.reader.take_in(&mut piece[..room]) {
            Ok(0) => Filled::Ended,
            Ok(count) => match self.bytes.extend_from_slice(&piece[..count]) {
                Ok(()) => Filled::Grew,
                Err(_) => unreachable!(),
            },
            Err(error) if error.kind() == ErrorKind::WouldBlock => Filled::Waits,
            Err(_) => Filled::Failed(Cause::BrokenOff),
        }
    }
}

impl<R: Incoming> Read for Gathered<R> {
    ghost remaining = { λ it. prepend_known (drop it.at it.bytes.items) (R.remaining it.reader) };

    fn read(&mut self, buf: &mut [u8]) -> Result<usize> {
        self.receive(buf)
    }
}

impl<R: Incoming> Incoming for Gathered<R> {
    ghost use Rattle.moo_desk.specs.Broken.{IsBroken};

    ghost fails = { IsBroken R.fails };

    // Past the gathered bytes the reader itself is asked, which doesn't wait. So no request seems to end that may go on.
    fn receive(&mut self, buf: &mut [u8]) -> Result<usize> {
        if self.at == self.bytes.len() {
            if self.coming == Coming::Unread {
                return Err(Error::from(ErrorKind::TimedOut));
            }
            return self.reader.receive(buf);
        }
        let mut rest: &[u8] = &self.bytes[self.at..];
        let count = rest.read(buf)?;
        self.at += count;
        Ok(count)
    }
}
