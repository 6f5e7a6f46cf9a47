//! What a run finds on its host: the files of batches, and what the host knows of a world's file.

ghost use Rattle.std.specs.Prelude.{◌≡◌, IsErr, IfOk, ℕ, List, Option, ⊤};

use std::io::{Read, Result};

/// Files of batches, by their paths.
///
/// A function over `B: BatchFiles` is proved for all texts that they may hold, and opens no file but those that may be read.
pub trait BatchFiles {
    type Text: Read + Drop;

    /// The text of the file of a path, if it is known.
    ghost text: { Self → List ℕ → Option (List ℕ) };

    /// The file of this path may be read.
    ghost may_read: { Self → List ℕ → Type 0 } = { λ _ _. ⊤ };

    /// The file of this path can't be opened. So code over any host says of no file that it can't, unless the host did.
    ghost lacks: { Self → List ℕ → Type 0 };

    /// Opens the file of a path. An error if it is missing, or can't be opened.
    fn open(&self, path: &str) -> Result<Self::Text>
        requires { may_read self.now path.now }
        // An error says that the file can't be opened.
        ensures lacks { IsErr result → lacks self.now path.now }
        ensures text { IfOk result (λ file. Self.Text.remaining file ≡ text self.now path.now) };
}

/// What a host says of the file of a world on standard error.
pub trait Advice {
    /// Says why the file of a path can't be opened or read as a database, if the host finds the reason; whether it did.
    fn explains(&self, path: &str) -> bool;

    /// Says that the pages of a file don't have the size at which a batch is fastest, if they don't.
    fn notes_pages(&self, path: &str);
}
