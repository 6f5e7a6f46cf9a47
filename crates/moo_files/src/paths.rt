//! Where the files of a world are.

ghost use Rattle.std.specs.Prelude.{◌≡◌, IsTrue, IsErr, IfOk, IfErr, ℕ, List};
ghost use Rattle.sqlite_std_file.specs.declared.pair.OpenError.{OpenError};
ghost use Rattle.moo_files.specs.{Causes.{names_no_file, IsUnfit}, Start.{HoldStart}};

use sqlite::{Files, Start};
use sqlite_disk::Disk;
use sqlite_std_file::OpenError;
use std::fs::Metadata;
use std::io::Result as IoResult;

/// The files of worlds, by their paths. `T` is what the opened files hold.
///
/// A file is opened by spending a `T`, which can't be copied or made. So code over any `T` opens no more files than it was given starts,
/// and no file for anything else.
pub trait WorldFiles<T: Start> {
    /// A file that is open.
    type Disk: Disk + Drop;

    /// The paths that may be looked at and opened. So code over any host opens no path but those of which its caller says this.
    ghost may_open: { Self → List ℕ → Type 0 };

    /// The files of a path couldn't be opened, and why. So code over any host says of no files that they couldn't, unless the host said it.
    ghost refuses: { Self → List ℕ → OpenError → Type 0 };

    /// No world can be opened at a path: there is no file or an empty one, it can't be looked at or opened, or there is no random number.
    /// So code over any host refuses no path before its files are open, unless the host did.
    ghost denies: { Self → List ℕ → Type 0 };

    /// What the system knows of the file of a path. An error if there is no file, or it can't be looked at.
    fn metadata(&self, path: &str) -> IoResult<Metadata>
        // The caller may look at this path.
        requires { may_open self.now path.now }
        // If there is no file, or an empty one, the host denied the path.
        ensures denied { IsUnfit result → denies self.now path.now };

    /// A random number, for the salts of a log. An error if the system can't give one.
    fn seed(&self) -> IoResult<u64>
        // Without a random number the host denies every path.
        ensures denied { IsErr result → (path : List ℕ) → denies self.now path };

    /// Opens the database file of a path and its log, and makes what is missing. They hold what the start says of them. The errors are
    /// those of `sqlite_std_file::open`.
    fn open_database(&self, path: &str, start: T) -> Result<Files<Self::Disk>, OpenError>
        // The caller may open this path.
        requires { may_open self.now path.now }
        // The disk lets both files be used.
        ensures usable { IfOk result (λ files. IsTrue (Self.Disk.Disk.is_usable files.log) × IsTrue (Self.Disk.Disk.is_usable files.db)) }
        // They hold what the start says.
        ensures start { IfOk result (HoldStart T.Start Self.Disk.Disk) }
        // An error is a refusal of the host, for this reason.
        ensures refused { IfErr result (refuses self.now path.now) }
        // At an error the host denied the path.
        ensures denied { IsErr result → denies self.now path.now };
}

/// Whether a name isn't the path of a file: `:memory:`, or a URI, which begins with `file:`.
pub(crate) fn names_no_file(path: &str) -> bool
    ensures { result ≡ names_no_file path.now }
{
    path == ":memory:" || path.starts_with("file:")
}
