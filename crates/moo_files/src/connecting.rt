//! Opening a connection to the files of a world, or making one.

ghost use Rattle.std.specs.Prelude.{◌≡◌, ◌≢◌, ◌⊎◌, IfOk, IfErr, IsErr, IsTrue};
ghost use Rattle.sqlite.specs.{Start.{FindsIn}, Tree.{Trees}, WalFiles.{image_at}};
ghost use Rattle.sqlite_std_file.specs.declared.pair.OpenError.{OpenError};
ghost use Rattle.moo_store.specs.OpeningRows.{IsOfStore, not_ours};
ghost use Rattle.moo_files.specs.{Causes.{HasCauseOr, IsDenied, IsOpenable}, Connected.{IsConnected, IsNewOrFound, Unconnects}};
ghost use Rattle.moo_files.specs.{Contents.{HoldsTrees}, Making.{IsUnmadeIn}, Opened.{Contents, Hold, IsRefusedFrom}};
ghost use Rattle.moo_files.specs.Remains.{cannot_open, busy, malformed, IfNotOpened, IsCleanRemains, IsUnopened, MayStopAs};
ghost use Rattle.moo_files.specs.Start.{HoldStart};

use crate::blank::open_or_make;
use crate::pair::open_files;
use crate::paths::{WorldFiles, names_no_file};
use crate::remains::Remains;
use moo_store::StoreFault;
use sqlite::{Connection, Error, ErrorCode, FileStore, Files, Options, Start};
use sqlite_std_file::OpenError as PathError;
use std::alloc::Global;
use std::io::ErrorKind;

/// The fault that is told if `sqlite` can't open the files.
fn open_fault(error: Error) -> StoreFault
    ensures store { IsOfStore result }
    // A lack of memory is told as such.
    ensures memory { error ≡ Error.SqliteFailure ErrorCode.OutOfMemory → result ≡ StoreFault.OutOfMemory }
    // Any other error is told as it is.
    ensures other { error ≢ Error.SqliteFailure ErrorCode.OutOfMemory → result ≡ StoreFault.Store error }
{
    match error {
        Error::SqliteFailure(ErrorCode::OutOfMemory) => StoreFault::OutOfMemory,
        error => StoreFault::Store(error),
    }
}

const CANNOT_OPEN: StoreFault = StoreFault::Store(Error::SqliteFailure(ErrorCode::CannotOpen));

const BUSY: StoreFault = StoreFault::Store(Error::SqliteFailure(ErrorCode::DatabaseBusy));

/// The fault that is told if the two files at a path can't be opened.
fn path_fault(error: PathError) -> StoreFault
    ensures { (result ≡ cannot_open) ⊎ ((result ≡ StoreFault.OutOfMemory) ⊎ (result ≡ busy)) }
{
    match error {
        PathError::OutOfMemory => StoreFault::OutOfMemory,
        PathError::Busy => BUSY,
        PathError::Io(error) if error.kind() == ErrorKind::OutOfMemory => StoreFault::OutOfMemory,
        _ => CANNOT_OPEN,
    }
}

/// Opens the two files at a path, and says how `sqlite` is to open them, with a random seed for the log's salts. Store with `CannotOpen`:
/// the name is `:memory:` or a URI, there is no random number, or the files can't be opened. Store with `DatabaseBusy`: they are open
/// elsewhere. `OutOfMemory`. With each fault the unspent start comes back, or the seal of one that was spent in vain.
fn open_pair<T: Start, H: WorldFiles<T>>(
    host: &H,
    path: &str,
    start: T,
) -> Result<(Files<H::Disk>, Options), (StoreFault, Remains<T, H::Disk>)>
    // The caller may open this path.
    requires may { H.may_open host.now path.now }
    // The disk lets both files be used.
    ensures usable { IfOk result (λ pair. IsTrue (H.Disk.Disk.is_usable pair.0.log) × IsTrue (H.Disk.Disk.is_usable pair.0.db)) }
    // They hold what the start says.
    ensures start { IfOk result (λ pair. HoldStart T.Start H.Disk.Disk pair.0) }
    // A fault is one of the store or of memory.
    ensures fault { IfErr result (λ e. IsOfStore e.0) }
    // No fault says that the files aren't ours or are malformed.
    ensures own { IfErr result (λ e. (e.0 ≢ not_ours) × (e.0 ≢ malformed)) }
    // The fault is one that may come before any file is open.
    ensures stopped { IfErr result (λ e. MayStopAs e.0 e.1) }
    // No file was opened.
    ensures unopened { IfErr result (λ e. IsUnopened e.1) }
    // At a fault the name isn't a path, or the host denied it.
    ensures denied { IsErr result → IsDenied (H.denies host.now) path.now }
    // If the start was spent, the host said why the files can't be opened.
    ensures refused { IfErr result (λ e. IfNotOpened e.1 ((error : OpenError) × H.refuses host.now path.now error)) }
{
    if names_no_file(path) {
        return Err((CANNOT_OPEN, Remains::Untouched(start)));
    }
    let Ok(seed) = host.seed() else {
        return Err((CANNOT_OPEN, Remains::Untouched(start)));
    };
    match open_files(host, path, start) {
        Ok(files) => Ok((files, Options::new(seed))),
        Err((error, seal)) => Err((path_fault(error), Remains::NotOpened(seal))),
    }
}

/// Opens a connection to files in which a world is to be made. In files that hold no database a blank one is made first, as
/// `open_or_make` does. The faults are those of `open_pair` and `open_or_make`, each with what is left of the files.
pub(crate) fn open_new<T: Start, H: WorldFiles<T>>(
    alloc: Global,
    host: &H,
    path: &str,
    start: T,
) -> Result<Connection<FileStore<H::Disk>>, (StoreFault, Remains<T, H::Disk>)>
    // The caller may open this path.
    requires may { H.may_open host.now path.now }
    // The connection shows no rows, in files that held no database; or what `sqlite` finds in the files.
    ensures connects { IfOk result (IsConnected (IsNewOrFound (image_at T.Start))) }
    // After a fault no world was begun, and the store failed or memory ran out.
    ensures unmade { IfErr result (λ e. IsUnmadeIn (λ _. ⊥) (image_at T.Start) e.0 e.1) }
    // Files that hold nothing or a database are refused only if the name isn't a path, the host denied them, memory ran out, a call of the
    // disk failed, or they are as long as their format allows.
    ensures cause { IsOpenable (image_at T.Start) →
        IfErr result (λ e. IsCleanRemains e.1 → HasCauseOr (λ _. ⊥) (IsDenied (H.denies host.now) path.now) e.0 e.1) }
    // If the start was spent on files that couldn't be opened, the host said why.
    ensures by_host { IfErr result (λ e. IfNotOpened e.1 ((error : OpenError) × H.refuses host.now path.now error)) }
{
    let (files, options) = match open_pair(host, path, start) {
        Ok(pair) => pair,
        Err(refused) => return Err(refused),
    };
    match open_or_make(alloc, files, options) {
        Ok(made) => Ok(made),
        Err((error, left)) => Err((open_fault(error), Remains::Leftover(left))),
    }
}

/// Opens a connection to the files of a world. It makes no database. The faults are those of `open_pair` and of `sqlite`, each with what
/// is left of the files.
pub(crate) fn open_connection<T: Start, H: WorldFiles<T>>(
    alloc: Global,
    host: &H,
    path: &str,
    start: T,
) -> Result<Connection<FileStore<H::Disk>>, (StoreFault, Remains<T, H::Disk>)>
    // The caller may open this path.
    requires may { H.may_open host.now path.now }
    // The connection shows what `sqlite` finds in the files.
    ensures connects { IfOk result (IsConnected (FindsIn (image_at T.Start))) }
    // A fault is one of the store or of memory.
    ensures fault { IfErr result (λ e. IsOfStore e.0) }
    // If the disk returned what was written, files that held anything are spared. If they weren't opened, the fault is CannotOpen,
    // NotADatabase of an empty file, DatabaseBusy or OutOfMemory.
    ensures refused { IfErr result (λ e. IsRefusedFrom (image_at T.Start) e.0 e.1) }
    // Files that hold nothing hold nothing still, or a database without rows. A database stays as it is; no fault says that it isn't ours,
    // and it is called malformed only if the disk failed.
    ensures unconnects { (held : Contents) → Hold (image_at T.Start) held →
        IfErr result (λ e. IsCleanRemains e.1 → Unconnects held (image_at T.Start) e.0 e.1) }
    // A database is refused only if the name isn't a path, the host denied it, memory ran out, a call of the disk failed, or the files are
    // as long as their format allows.
    ensures cause { (trees : Trees) → HoldsTrees (image_at T.Start) trees →
        IfErr result (λ e. IsCleanRemains e.1 → HasCauseOr (λ _. ⊥) (IsDenied (H.denies host.now) path.now) e.0 e.1) }
    // If the start was spent on files that couldn't be opened, the host said why.
    ensures by_host { IfErr result (λ e. IfNotOpened e.1 ((error : OpenError) × H.refuses host.now path.now error)) }
{
    let (files, options) = match open_pair(host, path, start) {
        Ok(pair) => pair,
        Err(refused) => return Err(refused),
    };
    match Connection::open_files(alloc, files, options) {
        Ok(conn) => Ok(conn),
        Err((error, left)) => Err((open_fault(error), Remains::Leftover(left))),
    }
}
