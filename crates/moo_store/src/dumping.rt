//! Writing all that a World holds.

ghost use Rattle.std.specs.{Prelude.{◌≡◌, ◌≢◌, ℕ, take, false, IsTrue, OnOk, IfErr, IsErrOf}, Io.KnownBytes.{Appends}};
ghost use Rattle.moo_dump.specs.Dump.{dump};
ghost use Rattle.moo_store.specs.World.{state_of_world};

use crate::world::World;
use moo_dump::{RowsDumpFault, dump};
use sqlite::Alter;
use std::io::Write;

/// Why a dump stopped.
#[derive(Clone, Copy)]
pub enum DumpFault {
    /// The writer failed, or took no bytes.
    Write,
    /// Memory ran out.
    OutOfMemory,
    /// The World had failed.
    Closed,
}

impl<S: Alter + Drop> World<S> {
    /// Writes all that the World holds as text, as `moo_dump::dump` does.
    ///
    /// Write if the writer fails or takes no bytes, and OutOfMemory: only the beginning of the text is written then. Closed if the
    /// World had failed: nothing is written.
    pub fn dump<W: Write>(&self, output: &mut W) -> Result<(), DumpFault>
        // If it succeeds, the dump of the World was written after what the writer had, and nothing else.
        ensures ok { self.now.failed ≡ false →
            OnOk result (Appends (W.contents output.old) (W.contents output.new) (dump (state_of_world self.now))) }
        // If it fails, the beginning of the dump was written.
        ensures err { self.now.failed ≡ false → IfErr result (λ fault. (fault ≢ DumpFault.Closed)
            × ((count : ℕ) × Appends (W.contents output.old) (W.contents output.new) (take count (dump (state_of_world self.now))))) }
        // If the World had failed, nothing was written.
        ensures closed { IsTrue self.now.failed → IsErrOf result DumpFault.Closed × (output.new ≡ output.old) }
    {
        if self.failed {
            return Err(DumpFault::Closed);
        }
        match dump(self.alloc, &self.rows, output) {
            Ok(()) => Ok(()),
            Err(RowsDumpFault::Write) => Err(DumpFault::Write),
            Err(RowsDumpFault::OutOfMemory) => Err(DumpFault::OutOfMemory),
        }
    }
}
