//! New files, with small pages.

ghost use Rattle.std.specs.Prelude.{◌≡◌, [], IsTrue, IfOk, IfErr, false};
ghost use Rattle.sqlite_wal.specs.{PageSize.{bytes_of}, Reads.{AreClean}};
ghost use Rattle.sqlite_wal.specs.declared.error.Error.TheVariants as log_error;
ghost use Rattle.sqlite_store.specs.Unopened.{state_of, files_of, wanted_by};
ghost use Rattle.sqlite.specs.{State.{HasCleanDisk}, Held.{IsNew}, Files.{file_state, IsOpened, IsEmpty, IsCleanLeft, image_of}};
ghost use Rattle.moo_files.specs.{Causes.{IsOpenable, IsRefused}, Blank.{IsBlank, MakesOrFinds, LeavesBlank, SparesFiles}};

use sqlite::{Connection, Error, ErrorCode, FileStore, Files, Leftover, Options};
use sqlite_disk::Disk;
use sqlite_pager::{PageSize, Pager};
use sqlite_pool::probe_blank;
use sqlite_store::{OpenError, Unopened};
use std::alloc::{AllocFailed, Global};

/// The size of a new file's pages, in bytes. `sqlite` makes pages of 4,096 bytes. A batch changes few bytes of each page that it
/// writes, so that small pages are faster.
const NEW_SIZE: usize = 1024;

const NO_MEMORY: Error = Error::SqliteFailure(ErrorCode::OutOfMemory);

const IO: Error = Error::SqliteFailure(ErrorCode::SystemIoFailure);

const FULL: Error = Error::SqliteFailure(ErrorCode::DiskFull);

const UNSOUND: Error = Error::SqliteFailure(ErrorCode::NotADatabase);

/// The error that is told if a blank database can't be made.
fn make_error(error: OpenError) -> Error
    // A lack of memory is told as such.
    ensures { error ≡ OpenError.OutOfMemory → result ≡ Error.SqliteFailure ErrorCode.OutOfMemory }
{
    match error {
        OpenError::OutOfMemory => NO_MEMORY,
        OpenError::Io => IO,
        OpenError::Full => FULL,
        OpenError::Refused => UNSOUND,
    }
}

/// The error that is told if `sqlite` can't look at the files, to see whether they hold a database.
fn probe_error(error: sqlite_wal::Error) -> Error
    // A lack of memory is told as such.
    ensures { error ≡ log_error.OutOfMemory → result ≡ Error.SqliteFailure ErrorCode.OutOfMemory }
{
    match error {
        sqlite_wal::Error::OutOfMemory => NO_MEMORY,
        sqlite_wal::Error::Full => FULL,
        _ => IO,
    }
}

/// A store over the two files that isn't opened yet: nothing is read of them. Its pages have this size, and `options` go to its pager. If
/// memory runs out, the files come back.
fn unopened_over<D: Disk>(
    alloc: Global,
    files: Files<D>,
    size: PageSize,
    options: Options,
) -> Result<Unopened<D>, Files<D>>
    // The files that come back are the given ones.
    ensures back { IfErr result (λ left. (left.log ≡ files.log) × (left.db ≡ files.db)) }
    // The store is over the given files.
    ensures files { IfOk result (λ unopened. files_of unopened ≡ (files.log, files.db)) }
    // Their pages have this size.
    ensures size { IfOk result (λ unopened. (state_of unopened).page_size ≡ bytes_of size) }
    // No table is expected in them.
    ensures none { IfOk result (λ unopened. wanted_by unopened ≡ []) }
{
    let pager = match Pager::new(alloc, files, size, options) {
        Ok(pager) => pager,
        Err(AllocFailed { value }) => return Err(value),
    };
    match Unopened::new(alloc, pager, &[]) {
        Ok(fresh) => Ok(fresh),
        Err(AllocFailed { value }) => Err(value.close()),
    }
}

/// Makes a database without tables in files that hold none, with pages of 1,024 bytes, and connects to it. The errors are those of
/// `open_or_make`, each with what is left of the files.
fn connect_blank<D: Disk + Drop>(
    alloc: Global,
    files: Files<D>,
    size: PageSize,
    options: Options,
) -> Result<Connection<FileStore<D>>, (Error, Leftover<D>)>
    // The disk lets the log be used.
    requires log { IsTrue (D.Disk.is_usable files.log) }
    // The disk lets the database file be used.
    requires db { IsTrue (D.Disk.is_usable files.db) }
    // The pages have 1,024 bytes.
    requires size { bytes_of size ≡ 1024 }
    // On a clean disk the connection works.
    ensures opened { IfOk result (λ c. HasCleanDisk (file_state c) → IsOpened c) }
    // It shows a database without tables and rows.
    ensures empty { IfOk result (λ c. HasCleanDisk (file_state c) → AreClean D.Disk files.log files.db
        × IsEmpty (file_state c).committed.trees) }
    // The connection is in no transaction, and allows any number of steps of SQL.
    ensures fresh { IfOk result IsNew }
    // After an error files that held no database hold none still, or one without tables; and memory ran out, a call of the disk failed, or
    // they are as long as their format allows.
    ensures left { IfErr result (λ e. IsCleanLeft e.1 → AreClean D.Disk files.log files.db
        × (IsBlank (image_of D.Disk files) → LeavesBlank files e.1 × IsRefused e.0 e.1)) }
{
    let fresh = match unopened_over(alloc, files, size, options) {
        Ok(fresh) => fresh,
        Err(left) => return Err((NO_MEMORY, Leftover::Files(left))),
    };
    let store = match fresh.create() {
        Ok(store) => store,
        Err((error, left)) => return Err((make_error(error), Leftover::Unopened(left))),
    };
    match Connection::over(alloc, store) {
        Ok(conn) => Ok(conn),
        Err((error, store)) => Err((error, Leftover::Store(store))),
    }
}

/// A connection to the files. If they hold no database, one without tables is made in them first, with pages of 1,024 bytes. Files
/// that hold a database are opened as `sqlite` opens them, whatever the size of their pages.
///
/// Errors, each with what is left of the files: `OutOfMemory`; `NotADatabase` and `DatabaseCorrupt`: the files hold something that
/// isn't a sound database; `DiskFull`: the disk or a limit of the format; `SystemIoFailure` and others: the disk failed.
pub fn open_or_make<D: Disk + Drop>(
    alloc: Global,
    mut files: Files<D>,
    options: Options,
) -> Result<Connection<FileStore<D>>, (Error, Leftover<D>)>
    // The disk lets the log be used.
    requires log { IsTrue (D.Disk.is_usable files.log) }
    // The disk lets the database file be used.
    requires db { IsTrue (D.Disk.is_usable files.db) }
    // On a clean disk the connection works.
    ensures opened { IfOk result (λ c. HasCleanDisk (file_state c) → IsOpened c) }
    // On a clean disk it shows of files that hold a database what they hold, and of files that hold none a database without tables and
    // rows.
    ensures found { IfOk result (λ c. HasCleanDisk (file_state c) → MakesOrFinds files c) }
    // The connection is in no transaction, and allows any number of steps of SQL.
    ensures fresh { IfOk result IsNew }
    // After an error, if the disk returned what was written (`IsCleanLeft`, here and below), files that held no database hold none still,
    // or one without tables. Of others a crash leaves what it could leave before, at most with checksums that their pages lacked (SQLite's
    // cksumvfs); or, if `sqlite` had read all trees already, just these (`LeavesFiles`, a word of `sqlite`).
    ensures spared { IfErr result (λ e. IsCleanLeft e.1 → SparesFiles files e.1) }
    // If the disk returned what was written, files that hold nothing, or a database, are refused only if memory ran out, a call of the disk
    // failed, or they are as long as their format allows.
    ensures cause { IfErr result (λ e. IsCleanLeft e.1 → IsOpenable (image_of D.Disk files) → IsRefused e.0 e.1) }
{
    let size = PageSize::new(NEW_SIZE).unwrap();
    match probe_blank(alloc, &mut files, size, false) {
        Ok(true) => connect_blank(alloc, files, size, options),
        Ok(false) => Connection::open_files(alloc, files, options),
        Err(error) => Err((probe_error(error), Leftover::Files(files))),
    }
}
