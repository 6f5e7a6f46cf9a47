//! Why a request isn't received.

ghost use Rattle.std.specs.Prelude.{◌≡◌};
ghost use Rattle.moo_http_request.specs.declared.fault.ReadFault.TheVariants.{OutOfMemory};

use std::alloc::AllocError;

/// Why a request isn't received.
#[derive(Clone, Copy, Drop)]
pub enum ReadFault {
    /// The reader failed.
    Read,
    /// Memory ran out.
    OutOfMemory,
}

impl From<AllocError> for ReadFault {
    ghost from_gives = { λ _ fault. fault ≡ OutOfMemory };

    fn from(_: AllocError) -> ReadFault {
        ReadFault::OutOfMemory
    }
}
