//! Why a line or a text could not be read, or bytes not be written.

ghost use Rattle.std.specs.Prelude.{◌≡◌};
ghost use Rattle.moo_text.specs.declared.fault.TextFault.TheVariants.{OutOfMemory};

use std::alloc::{AllocError, AllocFailed};

/// The writer failed, or took no bytes.
#[derive(Clone, Copy)]
pub struct WriteFault;

/// Why a run over a text stopped.
#[derive(Clone, Copy)]
pub enum TextFault {
    /// The reader failed.
    Read,
    /// The writer failed, or took no bytes.
    Write,
    /// Memory ran out.
    OutOfMemory,
    /// The text is longer than 1,073,741,824 bytes.
    Long,
}

impl From<AllocError> for TextFault {
    ghost from_gives = { λ _ e. e ≡ OutOfMemory };

    fn from(_e: AllocError) -> TextFault {
        TextFault::OutOfMemory
    }
}

impl<T: Drop> From<AllocFailed<T>> for TextFault {
    ghost from_gives = { λ _ e. e ≡ OutOfMemory };

    fn from(_e: AllocFailed<T>) -> TextFault {
        TextFault::OutOfMemory
    }
}
