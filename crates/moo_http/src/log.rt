//! What is told to the operator.

use crate::note::{Note, Trouble};
use crate::rate::Rate;
use httpdate::HttpDate;
use moo_arrivals::Route;
use std::io::Eprint;
use std::time::Clock;

/// Lines on standard error: one for each connection that failed and each answer of 503, but at most ten in a second.
///
/// A line has the time, the route and the cause. Before the next line it is told how many had no line.
#[derive(Drop)]
pub struct Log<'a, C> {
    rt: &'a C,
    rate: Rate,
}

/// The seconds since 1970; 0 if the clock can't be read.
fn seconds<C: Clock>(clock: &C) -> u64 {
    match clock.since_1970() {
        Ok(time) => time.as_secs(),
        Err(_) => 0,
    }
}

/// Writes the line of one connection: the time, its route and what went wrong.
fn put_line<C: Eprint>(rt: &C, second: u64, route: Route, trouble: Trouble) {
    if let Ok(date) = HttpDate::from_unix_secs(second) {
        let _said = eprintln!(rt; "moo: {date}: {route}: {trouble}");
    }
}

/// Writes how many connections had no line, if any had none.
fn put_untold<C: Eprint>(rt: &C, untold: u32) {
    if untold > 0 {
        let _said = eprintln!(rt; "moo: {untold} more connections failed or were answered 503");
    }
}

impl<'a, C: Clock + Eprint> Log<'a, C> {
    /// A log on this console, to which nothing was told yet.
    pub fn new(rt: &'a C) -> Log<'a, C> {
        Log {
            rt,
            rate: Rate::new(),
        }
    }

    /// Writes the line of a connection that failed or was answered 503, if the second has room for one; else it is counted.
    pub(crate) fn tell(&mut self, note: Note) {
        let Some(trouble) = note.trouble else {
            return;
        };
        let second = seconds(self.rt);
        let rate = self.rate.at(second);
        if rate.has_room() {
            put_untold(self.rt, rate.untold);
            put_line(self.rt, second, note.route, trouble);
            self.rate = rate.with_told();
        } else {
            self.rate = rate.with_untold();
        }
    }

    /// Writes how many connections had no line after the last line.
    pub(crate) fn finish(&mut self) {
        put_untold(self.rt, self.rate.untold);
        self.rate = Rate::new();
    }
}
