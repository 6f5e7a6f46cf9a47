//! Opening the world that a file holds.

ghost use Rattle.std.specs.Prelude.{◌≡◌, ◌≢◌, ◌⊎◌, IfOk, IfErr, IsErr, IsSome, Some, None, IfSome, false};
ghost use Rattle.std.specs.Fs.{file_type, metadata_len, IsFile};
ghost use Rattle.sqlite.specs.{State.{HasCleanDisk}, Files.{over_files}, Tree.{Trees}, WalFiles.{image_at}};
ghost use Rattle.sqlite_std_file.specs.declared.pair.OpenError.{OpenError};
ghost use Rattle.moo_tables_rows.specs.Tables.{Tables};
ghost use Rattle.moo_store.specs.{Opening.{Adopting}, OpeningRows.{SaysOr, AreMigrated, not_ours}, World.{store_of}};
ghost use Rattle.moo_files.specs.{Causes.{HasCause, HasCauseOr, StopsOver, IsDenied, IsUnfit}, Contents.{HoldsTrees, HoldsTables}};
ghost use Rattle.moo_files.specs.Opened.{Contents, Hold, IsOpenedOver, Opens, IsRefusedFrom, Refuses};
ghost use Rattle.moo_files.specs.Remains.{cannot_open, IfNotOpened, IsCleanRemains};

use crate::connecting::open_connection;
use crate::paths::WorldFiles;
use crate::remains::Remains;
use moo_store::{StoreFault, World, adopt};
use sqlite::{Connection, Error, ErrorCode, FileStore, Start};
use sqlite_disk::Disk;
use std::alloc::Global;
use std::fs::Metadata;
use std::io;

const CANNOT_OPEN: StoreFault = StoreFault::Store(Error::SqliteFailure(ErrorCode::CannotOpen));

const NO_DATABASE: StoreFault = StoreFault::Store(Error::SqliteFailure(ErrorCode::NotADatabase));

/// Why a file with this metadata is refused before it is opened: there is no file, or it holds no byte. None if neither is so. An empty
/// file would be made a blank database by opening it. A log beside an empty file counts for nothing.
fn refusal_of_metadata(found: io::Result<Metadata>) -> Option<StoreFault>
    // If there is no file, or it can't be looked at, the fault is CannotOpen.
    ensures missing { IsErr found → result ≡ Some cannot_open }
    // Of a file without a byte the fault is NotADatabase.
    ensures empty { IfOk found (λ meta. IsFile (file_type meta) → metadata_len meta ≡ 0 → result ≡ Some not_ours) }
    // Any other file isn't refused yet.
    ensures fit { IfOk found (λ meta. (IsFile (file_type meta) → metadata_len meta ≢ 0) → result ≡ None) }
    // A fault is CannotOpen or NotADatabase.
    ensures fault { IfSome result (λ fault. (fault ≡ cannot_open) ⊎ (fault ≡ not_ours)) }
    // A fault comes only if there is no file, or it can't be looked at, or it has no byte.
    ensures unfit { IsSome result → IsUnfit found }
{
    match found {
        Ok(data) if data.is_file() && data.len() == 0 => Some(NO_DATABASE),
        Ok(_data) => None,
        Err(_error) => Some(CANNOT_OPEN),
    }
}

/// `adopt` at the store in files, over any disk: a function of its own, since a function with such a call takes long to prove. The errors
/// are those of `adopt`, each with the connection.
pub fn adopt_files<D: Disk + Drop>(
    alloc: Global,
    conn: Connection<FileStore<D>>,
) -> Result<World<FileStore<D>>, (StoreFault, Connection<FileStore<D>>)>
    // The connection is in no transaction.
    requires outside { conn.in_transaction ≡ false }
    // As of `adopt`: a World of the tables' good rows, or a fault, the connection and the database as it was.
    ensures adopts { Adopting over_files conn result }
{
    adopt(alloc, conn)
}

/// Opens the world that a file holds. It never makes the file. A file of an earlier version is migrated to the present one, in one
/// transaction, once the whole world was read and found sound; nothing else is written. `T` stands for what the files hold, and no code
/// reads it.
///
/// Store with `ErrorCode::CannotOpen`: there is no file of this name, it isn't a file, or it can't be opened. Store with
/// `ErrorCode::DatabaseBusy`: another handle has it open. Store with `ErrorCode::NotADatabase`: it isn't a database, or has
/// other tables than ours. Any other Store: the disk failed, or what it holds isn't a whole database. Damaged and NewerVersion: its
/// tables show no world, and say where, or are those of a later version. OutOfMemory: memory was refused. At each refusal what is
/// left of the files is handed back.
pub fn open_from<T: Start, H: WorldFiles<T>>(
    alloc: Global,
    host: &H,
    path: &str,
    start: T,
) -> Result<World<FileStore<H::Disk>>, (StoreFault, Remains<T, H::Disk>)>
    // The caller may look at this path and open it.
    requires may { H.may_open host.now path.now }
    // A World that is opened works, and its rows are good. If the disk returned what was written, the files read as a sound database with
    // tables of ours.
    ensures opened { IfOk result (IsOpenedOver (image_at T.Start)) }
    // If its disk returned what was written, it works at the moment that their database shows, brought to the present version; a crash
    // leaves the database, or what that was migrated to; and the files held a database of ours.
    ensures opens { (held : Contents) → Hold (image_at T.Start) held →
        IfOk result (λ world. HasCleanDisk (store_of over_files world) → Opens held world) }
    // If the files weren't opened, the fault is CannotOpen, NotADatabase of an empty file, DatabaseBusy or OutOfMemory. If they were, and
    // the disk returned what was written, files that held anything are spared, whatever it was: if no connection comes back, what a crash
    // leaves of them is what they held, at most with checksums that its pages lacked (SQLite's cksumvfs). A connection comes back only if
    // they read as a sound database; what is held then the next clause says.
    ensures refused { IfErr result (λ e. IsRefusedFrom (image_at T.Start) e.0 e.1) }
    // `IsCleanRemains`, here and below: as long as the files were open the disk returned what was written. Calls of it may have failed.
    // Neither a damage nor a later version is told of files that hold a whole world, nothing, tables that aren't ours, or no sound
    // database; and once files are opened, no fault says of tables of ours that they aren't. A database is held still, or what it was
    // migrated to; files that held nothing hold nothing still, or a database without rows. If `sqlite` calls a database malformed as it
    // opens it, a call of the disk failed.
    ensures refuses { (held : Contents) → Hold (image_at T.Start) held →
        IfErr result (λ e. IsCleanRemains e.1 → Refuses held (image_at T.Start) e.0 e.1) }
    // If the start was spent on files that couldn't be opened, the host said why.
    ensures by_host { IfErr result (λ e. IfNotOpened e.1 ((error : OpenError) × H.refuses host.now path.now error)) }
    // A database is refused before a connection to it is open only if the name isn't a path, the host denied it, memory ran out, a call of
    // the disk failed, or the files are as long as their format allows.
    ensures cause { (trees : Trees) → HoldsTrees (image_at T.Start) trees →
        IfErr result (λ e. IsCleanRemains e.1 → HasCause (IsDenied (H.denies host.now) path.now) e.0 e.1) }
    // If the files hold tables of ours, a damage that the fault tells is their first, and a later version is told only of tables that have
    // one. Any other fault has a cause: the name isn't a path, the host denied it, a call of the disk failed, the files are as long as
    // their format allows, or memory ran out; or, if the tables are migrated, a row is too big, or a table has no rowid left for a new row.
    ensures stopped { (tables : Tables) → HoldsTables (image_at T.Start) tables → IfErr result (λ e. IsCleanRemains e.1 →
        SaysOr (HasCauseOr (StopsOver (AreMigrated tables) e.0) (IsDenied (H.denies host.now) path.now) e.0 e.1) tables e.0) }
{
    if let Some(fault) = refusal_of_metadata(host.metadata(path)) {
        return Err((fault, Remains::Untouched(start)));
    }
    let conn = match open_connection(alloc, host, path, start) {
        Ok(conn) => conn,
        Err((fault, remains)) => return Err((fault, remains)),
    };
    match adopt_files(alloc, conn) {
        Ok(world) => Ok(world),
        Err((fault, conn)) => Err((fault, Remains::Connection(conn))),
    }
}
