//! Why cells give no rows.

ghost use Rattle.std.specs.Prelude.{◌≡◌, ◌≢◌};
ghost use Rattle.moo_value.specs.declared.fault.LiteralFault.TheVariants.{OutOfMemory as no_memory};
ghost use Rattle.moo_cells.specs.declared.fault.RowFault.TheVariants.{Unreadable, OutOfMemory};
ghost use Rattle.moo_cells.specs.declared.fault.CellFault.TheVariants.{OutOfMemory as none_left};

use moo_damage::{Key, Kind};
use moo_value::LiteralFault;
use std::alloc::AllocError;
use thiserror::Error;

/// Why the cells of one row can't be read.
#[derive(Clone, Copy, Debug, Drop, Error)]
pub(crate) enum RowFault {
    /// They show no row within its limits.
    #[error("the cells show no row")]
    Unreadable,
    /// Memory ran out.
    #[error("out of memory")]
    OutOfMemory,
}

impl From<AllocError> for RowFault {
    ghost from_gives = { λ _ e. e ≡ OutOfMemory };

    fn from(_e: AllocError) -> RowFault {
        RowFault::OutOfMemory
    }
}

impl From<LiteralFault> for RowFault {
    ghost from_gives = { λ fault e. e ≡ Unreadable → fault ≢ no_memory };

    fn from(fault: LiteralFault) -> RowFault {
        match fault {
            LiteralFault::OutOfMemory => RowFault::OutOfMemory,
            _ => RowFault::Unreadable,
        }
    }
}

/// Why cells give no rows.
#[derive(Clone, Copy, Debug, Drop, Error)]
pub enum CellFault {
    /// The first kind of damage that is met, with the least key at which it is.
    #[error("{0} at {1}")]
    Damaged(Kind, Key),
    /// The tables are of a version later than the greatest that is known.
    #[error("the tables are of a newer version")]
    NewerVersion,
    /// Memory ran out.
    #[error("out of memory")]
    OutOfMemory,
}

impl From<AllocError> for CellFault {
    ghost from_gives = { λ _ e. e ≡ none_left };

    fn from(_e: AllocError) -> CellFault {
        CellFault::OutOfMemory
    }
}
