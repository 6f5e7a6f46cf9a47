//! Files that hold what a start says.

ghost use Rattle.std.specs.Prelude.{true, false, IsTrue};
ghost use Rattle.sqlite_std_file.specs.File.{file_is_usable, IsFresh};
ghost use Rattle.moo_files.specs.Start.{HoldStart};

use sqlite::{FileFrom, Files, Start};
use sqlite_disk::Disk;

/// Files as `sqlite_std_file::open` gives them are usable and hold what the start says, as `WorldFiles::open_database` promises it.
pub fn fresh_files_hold_start<T: Start>(files: &Files<FileFrom<T>>)
    // If `sqlite_std_file` says of both files that they may be used (`file_is_usable`), the disk lets them be used.
    ensures usable { IsTrue (file_is_usable T.Start files.now.log) → IsTrue (file_is_usable T.Start files.now.db)
        → IsTrue (⟦<FileFrom<T> as Disk>⟧.is_usable files.now.log) × IsTrue (⟦<FileFrom<T> as Disk>⟧.is_usable files.now.db) }
    // If both are as `sqlite_std_file::open` gives them (`IsFresh`), they hold what the start says, and so does what a crash leaves of
    // them; their disk is clean, and no call on them failed.
    ensures start { IsFresh true files.now.log → IsFresh false files.now.db → HoldStart T.Start ⟦<FileFrom<T> as Disk>⟧ files.now }
{}
