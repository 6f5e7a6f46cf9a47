//! Who tells of what is read of one file.

use crate::changes::DiskChanges;
use crate::line::{Line, Subject};
use crate::reading::Reading;
use std::io::Eprint;
use std::time::{Clock, Instant};

/// The clock is read at the first of so many reads.
const STEP: u32 = 64;

/// Tells of the reading of one file on standard error.
#[derive(Drop)]
pub(crate) struct Teller<'a, C> {
    console: &'a C,
    changes: &'a DiskChanges,
    subject: Subject,
    /// The length of the file in bytes, if it was asked for after the last change.
    length: Option<u64>,
    reading: Reading,
    /// How many reads come before the clock is read again.
    reads_left: u32,
}

impl<'a, C: Clock + Eprint> Teller<'a, C> {
    /// Tells of one file on this console. Nothing is read of it yet.
    pub(crate) fn new(console: &'a C, changes: &'a DiskChanges, subject: Subject) -> Teller<'a, C> {
        Teller {
            console,
            changes,
            subject,
            length: None,
            reading: Reading::new(),
            reads_left: 0,
        }
    }

    /// Notes how long the file is.
    pub(crate) fn note_length(&mut self, bytes: usize) {
        self.length = Some(bytes as u64);
    }

    /// Notes that the file is changed, which ends the run of reads of each file of the world. Its length is unknown then.
    pub(crate) fn note_change(&mut self) {
        self.changes.note();
        self.length = None;
    }

    /// Notes that so many bytes are read. At the first of each 64 reads it looks at the clock before that, and tells of the reading if it
    /// is time.
    pub(crate) fn note_read(&mut self, bytes: usize) {
        if self.reads_left == 0 {
            self.look_at_clock();
            self.reads_left = STEP;
        }
        self.reads_left -= 1;
        self.reading.add(bytes);
    }

    /// Looks at the clock, and tells of what was read before, if it is time. Errors of the clock and of standard error are ignored.
    fn look_at_clock(&mut self) {
        let Ok(now) = Instant::now(self.console) else {
            return;
        };
        if let Some(read) = self.reading.bytes_to_tell(now, self.changes.count()) {
            let line = Line {
                subject: self.subject,
                read,
                length: self.length,
            };
            let _said = eprintln!(self.console; "{line}");
        }
    }
}
