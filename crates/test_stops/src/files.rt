//! Two files in memory, one of which stops at some call.

use sqlite::Files;
use sqlite_disk::{Crash, Disk, Fuse, Memory};
use std::alloc::Global;
use std::test::Fail;
use test_visits::Fused;

/// Which of the two files stops.
#[derive(Clone, Copy, Drop)]
pub(crate) enum Which {
    /// The log.
    Log,
    /// The database file.
    Db,
}

/// What is left of a file after a stop.
#[derive(Clone, Copy, Drop)]
pub(crate) enum Loss {
    /// All that was not synced is lost, as if the machine had stopped.
    Unsynced,
    /// Nothing is lost, as if the process had been ended.
    Nothing,
}

/// The bytes of two files.
#[derive(Drop)]
pub(crate) struct Kept {
    pub(crate) log: Vec<u8>,
    pub(crate) db: Vec<u8>,
}

/// A copy of the bytes of two files, of which nothing is asked any more.
pub(crate) fn bytes_of(alloc: Global, files: &Files<Fused>) -> Result<Kept, Fail> {
    let log = files.log.inner().bytes().to_vec(alloc)?;
    Ok(Kept {
        log,
        db: files.db.inner().bytes().to_vec(alloc)?,
    })
}

/// A file of these bytes, all of them synced, that stops after so many calls.
fn new_fused(alloc: Global, bytes: &[u8], calls: u64) -> Result<Fused, Fail> {
    let mut memory = Memory::new(alloc);
    if memory.may_be_used() {
        memory.write_at(0, bytes)?;
    }
    if memory.may_be_used() {
        memory.sync()?;
    }
    Ok(Fuse::new(memory, calls))
}

/// Two files of these bytes, of which neither stops.
pub(crate) fn whole(alloc: Global, kept: &Kept) -> Result<Files<Fused>, Fail> {
    let log = new_fused(alloc, &kept.log, u64::MAX)?;
    Ok(Files {
        log,
        db: new_fused(alloc, &kept.db, u64::MAX)?,
    })
}

/// Two files of these bytes, of which one stops after so many calls.
pub(crate) fn stopping_files(
    alloc: Global,
    kept: &Kept,
    which: Which,
    calls: u64,
) -> Result<Files<Fused>, Fail> {
    let (log_calls, db_calls) = match which {
        Which::Log => (calls, u64::MAX),
        Which::Db => (u64::MAX, calls),
    };
    let log = new_fused(alloc, &kept.log, log_calls)?;
    Ok(Files {
        log,
        db: new_fused(alloc, &kept.db, db_calls)?,
    })
}

/// The files that the next open is given: what a stop left of these, by what was lost.
pub(crate) fn files_after_loss(
    alloc: Global,
    mut files: Files<Fused>,
    loss: Loss,
) -> Result<Files<Fused>, Fail> {
    match loss {
        Loss::Unsynced => {
            files.log.crash();
            files.db.crash();
            Ok(files)
        }
        Loss::Nothing => whole(alloc, &bytes_of(alloc, &files)?),
    }
}
