//! Why a connection wasn't served.

ghost use Rattle.std.specs.Prelude.{◌≡◌};
ghost use Rattle.moo_http.specs.{declared.fault.ServeFault.TheVariants.{OutOfMemory}, Faults.{fault_of}};

use moo_http_request::ReadFault;
use std::alloc::AllocError;
use thiserror::Error;

/// Why a connection wasn't served.
#[derive(Clone, Copy, Debug, PartialEq, Eq, Drop, Error)]
pub enum ServeFault {
    /// The reader failed; nothing is written, and nothing changed.
    #[error("the request can't be read")]
    Read,
    /// The writer failed or took no bytes; the beginning of the answer is written, and what was asked is done.
    #[error("the answer can't be written")]
    Write,
    /// Memory ran out; nothing is written, and what was asked may be done.
    #[error("out of memory")]
    OutOfMemory,
}

impl From<AllocError> for ServeFault {
    ghost from_gives = { λ _ fault. fault ≡ OutOfMemory };

    fn from(_: AllocError) -> ServeFault {
        ServeFault::OutOfMemory
    }
}

impl From<ReadFault> for ServeFault {
    ghost from_gives = { λ read fault. fault ≡ fault_of read };

    fn from(fault: ReadFault) -> ServeFault {
        match fault {
            ReadFault::Read => ServeFault::Read,
            ReadFault::OutOfMemory => ServeFault::OutOfMemory,
        }
    }
}
