//! The two files at a path, and the seal of a start that was spent on them in vain.

ghost use Rattle.std.specs.Prelude.{IsTrue, IsErr, IfOk, IfErr};
ghost use Rattle.moo_files.specs.Start.{HoldStart};

use crate::paths::WorldFiles;
use sqlite::{Files, Start};
use sqlite_std_file::OpenError;
use std::marker::PhantomData;

/// The two files couldn't be opened, and nothing came back. `T` is the start that was spent on them: only `open_files` makes a seal,
/// and only of a start that it handed on.
#[derive(Drop)]
pub struct NotOpened<T>(PhantomData<T>);

/// Opens the two files at a path by spending a start. An error says why they can't be opened, with the seal of the start.
pub(crate) fn open_files<T: Start, H: WorldFiles<T>>(
    host: &H,
    path: &str,
    start: T,
) -> Result<Files<H::Disk>, (OpenError, NotOpened<T>)>
    // The caller may open this path.
    requires may { H.may_open host.now path.now }
    // The disk lets both files be used.
    ensures usable { IfOk result (λ files. IsTrue (H.Disk.Disk.is_usable files.log) × IsTrue (H.Disk.Disk.is_usable files.db)) }
    // They hold what the start says.
    ensures start { IfOk result (HoldStart T.Start H.Disk.Disk) }
    // At an error the host said why the files can't be opened.
    ensures refused { IfErr result (λ e. H.refuses host.now path.now e.0) }
    // At an error the host denied the path.
    ensures denied { IsErr result → H.denies host.now path.now }
{
    match host.open_database(path, start) {
        Ok(files) => Ok(files),
        Err(error) => Err((error, NotOpened(PhantomData))),
    }
}
