//! Why a call fails.

use moo_value::Code;
use moo_world::Reason;
use std::alloc::AllocError;

/// Why a call fails.
#[derive(Clone, Copy)]
pub enum Fault {
    /// The check that failed, which has the call's error. The rows are as they were.
    Moo(Reason),
    /// A check failed of a call that a granted petition holds: the place of that call in the petition, from 0, and the check. The rows may
    /// be half changed.
    Held { place: u32, reason: Reason },
    /// No number is left for what the call makes. The rows are as they were, but for those of a `grant`.
    Full,
    /// Out of memory; the rows may be half changed.
    OutOfMemory,
}

impl From<Code> for Fault {
    ghost use Rattle.std.specs.Prelude.{◌≡◌};
    ghost use Rattle.moo_calls_shared.specs.declared.fault.Fault.TheVariants.{Moo};
    ghost use Rattle.moo_world.specs.declared.reason.Reason.TheVariants.{Given};

    ghost from_gives = { λ code fault. fault ≡ Moo (Given code) };

    fn from(code: Code) -> Fault {
        Fault::Moo(Reason::Given(code))
    }
}

impl From<Reason> for Fault {
    ghost use Rattle.std.specs.Prelude.{◌≡◌};
    ghost use Rattle.moo_calls_shared.specs.declared.fault.Fault.TheVariants.{Moo};

    ghost from_gives = { λ reason fault. fault ≡ Moo reason };

    fn from(reason: Reason) -> Fault {
        Fault::Moo(reason)
    }
}

impl From<AllocError> for Fault {
    ghost use Rattle.std.specs.Prelude.{◌≡◌};
    ghost use Rattle.moo_calls_shared.specs.declared.fault.Fault.TheVariants.{OutOfMemory};

    ghost from_gives = { λ _ fault. fault ≡ OutOfMemory };

    fn from(_e: AllocError) -> Fault {
        Fault::OutOfMemory
    }
}
