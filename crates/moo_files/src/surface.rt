//! The program doesn't come this way. The project's requirements name these calls. The program calls `open_from` and `make_from` itself,
//! and hands on what is left of a file that they refuse.

ghost use Rattle.std.specs.Prelude.{IfOk, IfErr};
ghost use Rattle.sqlite.specs.{State.{HasCleanDisk}, Files.{over_files}};
ghost use Rattle.moo_rows.specs.Opening.{opening_maps};
ghost use Rattle.moo_store.specs.{Moment.{Moment, rows_alone}, NewTables.{IsMadeOf}, OpeningRows.{IsOfStore}, Place.{Works}};
ghost use Rattle.moo_store.specs.{Moves.{Stands}, World.{store_of}};

use crate::making::make_from;
use crate::opening::open_from;
use crate::paths::WorldFiles;
use moo_store::{StoreFault, World};
use sqlite::{FileStore, Unknown};
use std::alloc::Global;

/// Opens the world that a file holds, as `open_from` does, for a file that nobody has read. The faults are those of `open_from`, and at
/// each the file is closed; a log that an earlier run left is copied into it first.
pub fn open_at<H: WorldFiles<Unknown>>(
    alloc: Global,
    host: &H,
    path: &str,
) -> Result<World<FileStore<H::Disk>>, StoreFault>
    // The caller may look at this path and open it.
    requires may { H.may_open host.now path.now }
    // Whatever the file holds, the World works at a moment of its own rows, which are good. Of their cells nothing is said.
    ensures { IfOk result (λ world. Stands over_files world (Works (rows_alone world.rows.maps))) }
{
    match open_from(alloc, host, path, Unknown) {
        Ok(world) => Ok(world),
        Err((fault, remains)) => {
            remains.shut();
            Err(fault)
        }
    }
}

/// Makes the opening world in a file, as `make_from` does, for a file that nobody has read. The faults are those of `make_from`, and at
/// each the file is closed.
pub fn create_at<H: WorldFiles<Unknown>>(
    alloc: Global,
    host: &H,
    path: &str,
) -> Result<World<FileStore<H::Disk>>, StoreFault>
    // The caller may open this path.
    requires may { H.may_open host.now path.now }
    // The World works at a moment of the opening rows. Of their cells nothing is said yet.
    ensures unseen { IfOk result (λ world. Stands over_files world (Works (rows_alone opening_maps))) }
    // If the disk returned what was written, it works at a moment that has each of these rows in its printed cells, and no other row.
    ensures seen { IfOk result (λ world. HasCleanDisk (store_of over_files world) →
        (m : Moment) × IsMadeOf opening_maps m × Stands over_files world (Works m)) }
    // A fault is one of the store or of memory.
    ensures fault { IfErr result IsOfStore }
{
    match make_from(alloc, host, path, Unknown, None) {
        Ok(world) => Ok(world),
        Err((fault, remains)) => {
            remains.shut();
            Err(fault)
        }
    }
}
