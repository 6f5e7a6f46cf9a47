//! A task on the world of two files.

use moo_store::{NoNotes, World, adopt, apply_text, create_in};
use sqlite::{Alter, Connection, FileStore, Files, Options};
use sqlite_disk::{Disk, Fuse, Memory};
use std::alloc::Global;

/// A file in memory that stops at some call.
pub type Fused = Fuse<Memory>;

/// What is done with the world of two files.
#[derive(Clone, Copy, Drop)]
pub enum Task<'a> {
    /// A new world is made.
    Init,
    /// Statements are run on the tables themselves.
    Statements(&'a str),
    /// The number of tables is written, a digit. They stay as they are.
    Tables,
    /// A text is run.
    Apply(&'a [u8]),
    /// The tables are checked.
    Check,
    /// The world is written, and checked.
    Look,
}

/// What came of a task.
#[derive(Drop)]
pub struct Seen {
    /// The world was there, and all of the task was done.
    pub is_done: bool,
    /// The files were closed without a fault after the task.
    pub is_closed: bool,
    /// What the task wrote: replies, or a dump.
    pub written: Vec<u8>,
}

impl Seen {
    /// What came of a task that isn't begun yet.
    pub fn new(alloc: Global) -> Seen {
        Seen {
            is_done: false,
            is_closed: false,
            written: Vec::new(alloc),
        }
    }
}

/// Writes the dump of a World, and checks its tables; whether neither has a fault.
fn look<S: Alter + Drop>(world: &mut World<S>, written: &mut Vec<u8>) -> bool {
    let is_written = world.dump(written).is_ok();
    world.check().is_ok() && is_written
}

/// Does a task over a World that was made or opened, and adds what it writes to `written`; whether all of it was done.
fn do_task<S: Alter + Drop>(world: &mut World<S>, task: Task<'_>, written: &mut Vec<u8>) -> bool {
    match task {
        Task::Init | Task::Statements(_) | Task::Tables => true,
        Task::Apply(text) => {
            apply_text(text, written, world, &mut NoNotes).is_ok_and(|tally| tally.lost == 0)
        }
        Task::Check => world.check().is_ok(),
        Task::Look => look(world, written),
    }
}

/// Does the task on the world of a connection, which is made or opened, and hands the connection back.
fn visit_world<S: Alter + Drop>(
    alloc: Global,
    conn: Connection<S>,
    task: Task<'_>,
    seen: &mut Seen,
) -> Connection<S> {
    if !conn.is_autocommit() {
        return conn;
    }
    let opened = match task {
        Task::Init => create_in(alloc, conn),
        _ => adopt(alloc, conn),
    };
    match opened {
        Ok(mut world) => {
            seen.is_done = do_task(&mut world, task, &mut seen.written);
            world.into_connection()
        }
        Err((_fault, conn)) => conn,
    }
}

/// The number of tables of a connection, as a digit: 5 in the first version, 8 in the present one, `?` for any other number.
fn tables_of<S: Alter + Drop>(conn: &Connection<S>) -> u8 {
    match conn.schema().tables.len() {
        5 => b'5',
        8 => b'8',
        _ => b'?',
    }
}

/// Does the task on the tables of a connection, or on the world in them, and hands the connection back.
fn visit<S: Alter + Drop>(
    alloc: Global,
    mut conn: Connection<S>,
    task: Task<'_>,
    seen: &mut Seen,
) -> Connection<S> {
    match task {
        Task::Statements(text) => {
            seen.is_done = conn.execute_batch(text).is_ok();
            conn
        }
        Task::Tables => {
            seen.is_done = seen.written.push(tables_of(&conn)).is_ok();
            conn
        }
        _ => visit_world(alloc, conn, task, seen),
    }
}

/// Opens the files, does the task and closes them, as the program does, and hands them back. Files that may not be used are left as they
/// are.
fn visit_files<D: Disk + Drop>(
    alloc: Global,
    files: Files<D>,
    task: Task<'_>,
    seen: &mut Seen,
) -> Files<D> {
    if !files.may_be_used() {
        return files;
    }
    match Connection::open_files(alloc, files, Options::new(1)) {
        Ok(conn) => close_conn(visit(alloc, conn, task, seen), seen),
        Err((_error, left)) => left.into_files(),
    }
}

/// Closes the files of a connection, notes whether that had no fault, and hands them back.
fn close_conn<D: Disk + Drop>(conn: Connection<FileStore<D>>, seen: &mut Seen) -> Files<D> {
    match conn.close_files() {
        Ok(files) => {
            seen.is_closed = true;
            files
        }
        Err((_error, store)) => store.close(),
    }
}

/// Opens files that stop at some call, does the task and closes them, and hands them back.
pub fn visit_fused(
    alloc: Global,
    files: Files<Fused>,
    task: Task<'_>,
    seen: &mut Seen,
) -> Files<Fused> {
    visit_files(alloc, files, task, seen)
}
