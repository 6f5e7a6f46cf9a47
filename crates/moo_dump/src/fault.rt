//! Why a dump stopped.

ghost use Rattle.std.specs.Prelude.{◌≡◌};
ghost use Rattle.moo_dump.specs.declared.fault.RowsDumpFault.TheVariants.{Write, OutOfMemory};

use moo_text::WriteFault;
use std::alloc::AllocError;

/// Why a dump stopped.
#[derive(Clone, Copy)]
pub enum RowsDumpFault {
    /// The writer failed, or took no bytes.
    Write,
    /// Memory ran out.
    OutOfMemory,
}

impl From<AllocError> for RowsDumpFault {
    ghost from_gives = { λ _ e. e ≡ OutOfMemory };

    fn from(_e: AllocError) -> RowsDumpFault {
        RowsDumpFault::OutOfMemory
    }
}

impl From<WriteFault> for RowsDumpFault {
    ghost from_gives = { λ _ e. e ≡ Write };

    fn from(_e: WriteFault) -> RowsDumpFault {
        RowsDumpFault::Write
    }
}
