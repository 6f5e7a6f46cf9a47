//! A gate over sockets.

ghost use Rattle.std.specs.Prelude.{◌≡◌, ◌≤◌, ◌^◌, ℤ, [], true, false, length, is_ok, Some, IfOk, IfSome, vec_capacity};
ghost use Rattle.mio.specs.Events.{items as events_items, capacity as events_capacity};
ghost use Rattle.moo_desk.specs.declared.held.TheConstants.{MOST};
ghost use Rattle.moo_desk.specs.Calls.{Asks, IsFor, IsNoFile, SaysWhy, TakesSocket, WaitsFor, Watches, WatchesAnew, marks_of};
ghost use Rattle.moo_desk.specs.Calls.{accepts, polls, registers, reregisters, splits, unblocks};

use crate::gate::{Gate, Inward, NEWS, Outward, Taken};
use crate::held::MOST;
use mio::{Events, Interest};
use std::alloc::Global;
use std::io::{Error, ErrorKind, Result};
use std::net::OpenStream;
use std::os::fd::RawFd;
use std::time::Duration;

/// The system's errors for no more open files: EMFILE (24) of this program, and ENFILE (23) of all programs.
const NO_FILES: [i32; 2] = [24, 23];

/// A listener, what is watched, and what is asked of both: each function is one call of the system.
///
/// A gate over `S: Sockets` is proved for all of them. So it can say of no call what it gave, unless it made it.
pub trait Sockets {
    ghost use Rattle.moo_desk.specs.Calls.{SocketCall};

    /// A connection as it was accepted.
    type Socket: Drop;

    type Reader: Inward + OpenStream + Drop;

    type Writer: Outward + OpenStream + Drop;

    /// The number of the listener, and that of a connection.
    ghost listener: { Self → ℤ };

    ghost number: { Self.Socket → ℤ };

    /// What was asked, what came of it, and the sockets before and after that.
    ghost does: { Self → SocketCall Self.Socket Self.Reader Self.Writer → Self → Type 0 };

    /// The file descriptor of the listener.
    fn listener_descriptor(&self) -> RawFd
        ensures { result ≡ listener self.now };

    /// The file descriptor of the socket that a reader reads from.
    fn reader_descriptor(&self, reader: &Self::Reader) -> RawFd
        ensures { result ≡ Self.Reader.peer reader.now };

    /// The file descriptor of the socket that a writer writes to.
    fn writer_descriptor(&self, writer: &Self::Writer) -> RawFd
        ensures { result ≡ Self.Writer.peer writer.now };

    /// Accepts the next connection. An error of the kind WouldBlock if none is there, and another if one can't be accepted.
    fn accept(&mut self) -> Result<Self::Socket>
        ensures { does self.old (accepts result) self.new };

    /// Sets that reads and writes of a connection never wait; whether that was done.
    fn unblock(&mut self, socket: &Self::Socket) -> bool
        ensures { does self.old (unblocks socket.now result) self.new };

    /// The reader and the writer of a connection. None if memory runs out; the connection is closed then.
    fn split(&mut self, alloc: Global, socket: Self::Socket) -> Option<(Self::Reader, Self::Writer)>
        ensures does { does self.old (splits socket result) self.new }
        ensures pair { IfSome result (λ both. (Self.Reader.peer both.0 ≡ number socket) × (Self.Writer.peer both.1 ≡ number socket)) };

    /// Watches a descriptor that isn't watched yet: from then on a wait also ends when it can be read or written, as `interest` says, and
    /// tells this mark. An error if the system can't watch it, for example since it is watched already.
    fn register(&mut self, descriptor: RawFd, mark: usize, interest: Interest) -> Result<()>
        ensures { does self.old (registers descriptor mark interest (is_ok result)) self.new };

    /// Watches a descriptor that is watched already, under this mark and with this interest in place of its earlier ones. An error if the
    /// system can't, for example since it isn't watched yet.
    fn reregister(&mut self, descriptor: RawFd, mark: usize, interest: Interest) -> Result<()>
        ensures { does self.old (reregisters descriptor mark interest (is_ok result)) self.new };

    /// Waits until a source changes, but no longer than this.
    fn poll(&mut self, events: &mut Events, most: Duration)
        ensures does { does self.old (polls most (events_items events.new)) self.new }
        ensures few { length (events_items events.new) ≤ events_capacity events.old }
        ensures room { events_capacity events.new ≡ events_capacity events.old };
}

/// The connections of a listener.
#[derive(Drop)]
pub struct SocketGate<S> {
    alloc: Global,
    sockets: S,
    events: Events,
    /// A connection was taken since the last wait.
    has_taken: bool,
    /// How many connections it gave.
    gave: u64,
    ghost room: { events_capacity events ≡ MOST },
}

/// Whether an error says that the system has no room for another open file, of this program or of all.
fn is_no_file(error: &Error) -> bool
    ensures yes { result ≡ true → IsNoFile error.now }
    ensures no { result ≡ false → ¬ (IsNoFile error.now) }
{
    match error.raw_os_error() {
        Some(number) => number == NO_FILES[0] || number == NO_FILES[1],
        None => false,
    }
}

/// What a gate says if the system accepted no connection, by its error: Nobody if none is there, NoRoom if there is no room for another
/// open file, else Failed.
fn why_none<R, W>(error: &Error) -> Taken<R, W>
    ensures { SaysWhy error.now result }
{
    if error.kind() == ErrorKind::WouldBlock {
        Taken::Nobody
    } else if is_no_file(error) {
        Taken::NoRoom
    } else {
        Taken::Failed
    }
}

/// Has a change of this source end a wait, whether it is registered already or not; whether it does.
fn watch_anew<S: Sockets>(sockets: &mut S, number: RawFd, mark: usize, interest: Interest) -> bool
    // It is watched under this mark in place of an earlier one, if it had one.
    ensures { (writes : _) → IsFor writes interest → WatchesAnew S.does number mark writes result sockets.old sockets.new }
{
    sockets.reregister(number, mark, interest).is_ok()
        || sockets.register(number, mark, interest).is_ok()
}

/// Lists the marks of these events, in their order.
fn tell_marks(events: &Events, told: &mut Vec<usize>)
    requires none { told.old.items ≡ [] }
    // The list has room for all of them, so that no memory is taken.
    requires room { length (events_items events.now) ≤ vec_capacity told.old }
    ensures marks { told.new.items ≡ marks_of (events_items events.now) }
    ensures room { vec_capacity told.new ≡ vec_capacity told.old }
{
    for event in events {
        told.push_reserved(event.token().0);
    }
}

impl<S: Sockets + Drop> SocketGate<S> {
    /// A gate over these sockets. An error if the listener can't be watched, or if memory runs out.
    pub fn new(alloc: Global, mut sockets: S) -> Result<SocketGate<S>>
        // It gave no connection yet, and a wait ends when one comes.
        ensures { IfOk result (λ gate. (gate.gave ≡ 0) × (gate.has_taken ≡ false)
            × Watches S.does (S.listener sockets) NEWS false true sockets gate.sockets) }
    {
        let events = Events::with_capacity(alloc, MOST)?;
        let listener = sockets.listener_descriptor();
        sockets.register(listener, NEWS, Interest::READABLE)?;
        Ok(SocketGate {
            alloc,
            sockets,
            events,
            has_taken: false,
            gave: 0,
        })
    }
}

impl<S: Sockets> SocketGate<S> {
    /// Whether the next connection is to be asked for only after a wait: one was taken since the last wait, and the listener, which this
    /// watches anew then, ends the wait if another is there.
    fn has_to_wait(&mut self) -> bool
        // One was taken, and the listener is watched.
        ensures waits { result ≡ true → (self.old.has_taken ≡ true)
            × WatchesAnew S.does (S.listener self.old.sockets) NEWS false true self.old.sockets self.new.sockets }
        // None was taken since the last wait, or the listener can't be watched.
        ensures asks { result ≡ false → Asks S.does (S.listener self.old.sockets) self.old.has_taken self.old.sockets self.new.sockets }
        ensures same { (self.new.has_taken ≡ self.old.has_taken) × (self.new.gave ≡ self.old.gave) }
    {
        let listener = self.sockets.listener_descriptor();
        self.has_taken && watch_anew(&mut self.sockets, listener, NEWS, Interest::READABLE)
    }
}

impl<S: Sockets + Drop> Gate for SocketGate<S> {
    ghost gave = { λ it. it.gave };

    ghost takes = { λ old taken new. TakesSocket S.does (S.listener old.sockets) old.gave old.has_taken old.sockets taken new.sockets };

    ghost waits = { λ old most told new. WaitsFor S.does old.sockets most told new.sockets × (new.has_taken ≡ false) };

    type Reader = S::Reader;

    type Writer = S::Writer;

    // Whether another is there, a wait tells. The system is not asked for one in vain: it makes a socket before it looks.
    fn take(&mut self) -> Taken<S::Reader, S::Writer> {
        let Some(gave) = self.gave.checked_add(1) else {
            return Taken::NoRoom;
        };
        if self.has_to_wait() {
            return Taken::Nobody;
        }
        let socket = match self.sockets.accept() {
            Ok(socket) => socket,
            Err(error) => return why_none(&error),
        };
        self.has_taken = true;
        let is_limited = self.sockets.unblock(&socket);
        match self.sockets.split(self.alloc, socket) {
            Some((reader, writer)) => {
                self.gave = gave;
                Taken::Came(reader, writer, is_limited)
            }
            None => Taken::Failed,
        }
    }

    fn watch(&mut self, reader: &S::Reader, mark: usize) -> bool
        ensures gave { self.new.gave ≡ self.old.gave }
        ensures watches { Watches S.does (S.Reader.peer reader.now) mark false result self.old.sockets self.new.sockets }
    {
        let number = self.sockets.reader_descriptor(reader);
        self.sockets
            .register(number, mark, Interest::READABLE)
            .is_ok()
    }

    fn watch_writer(&mut self, writer: &S::Writer, mark: usize) -> bool
        ensures gave { self.new.gave ≡ self.old.gave }
        ensures watches { WatchesAnew S.does (S.Writer.peer writer.now) mark true result self.old.sockets self.new.sockets }
    {
        let both = Interest::READABLE | Interest::WRITABLE;
        let number = self.sockets.writer_descriptor(writer);
        watch_anew(&mut self.sockets, number, mark, both)
    }

    fn wait(&mut self, most: Duration, told: &mut Vec<usize>) {
        told.clear();
        self.has_taken = false;
        self.sockets.poll(&mut self.events, most);
        tell_marks(&self.events, told);
    }
}
