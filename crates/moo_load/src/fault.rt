//! Why a text gives no world.

ghost use Rattle.std.specs.Prelude.{◌≡◌, ◌≢◌, ◌≤◌, length};
ghost use Rattle.moo_value.specs.declared.fault.LiteralFault.TheVariants.{OutOfMemory as no_memory};
ghost use Rattle.moo_load.specs.{Loaded.{SaysOfText}, declared.fault.LineFault.TheVariants.{OutOfMemory as none_left}};
ghost use Rattle.moo_load.specs.declared.fault.LoadFault.TheVariants.{OutOfMemory};

use crate::place::line_at;
use crate::reason::DumpReason;
use moo_damage::{Key, Kind};
use moo_value::LiteralFault;
use std::alloc::AllocError;

/// Why a text gives no world.
#[derive(Clone, Copy)]
pub enum LoadFault {
    /// The line of this number, from 1, isn't as a dump has it, or is missing; and what is wrong with it.
    NotADump(u64, DumpReason),
    /// Each line can be read, and the rows show no world: the first kind of damage, with the least key at which it is. Objects and
    /// petitions have the numbers that the text gives them. Properties and verbs are numbered from 1, in the order of the text.
    Damaged(Kind, Key),
    /// Memory ran out.
    OutOfMemory,
}

impl From<AllocError> for LoadFault {
    ghost from_gives = { λ _ e. e ≡ OutOfMemory };

    fn from(_e: AllocError) -> LoadFault {
        LoadFault::OutOfMemory
    }
}

/// Why a line can't be read.
#[derive(Clone, Copy)]
pub(crate) enum LineFault {
    /// No dump has the line, for this reason.
    Unreadable(DumpReason),
    /// Memory ran out for what it says.
    OutOfMemory,
}

/// What is read of a line, or why it can't be read.
pub(crate) type LineResult<T> = Result<T, LineFault>;

impl From<AllocError> for LineFault {
    ghost from_gives = { λ _ e. e ≡ none_left };

    fn from(_e: AllocError) -> LineFault {
        LineFault::OutOfMemory
    }
}

impl From<LiteralFault> for LineFault {
    ghost from_gives = { λ fault e. e ≢ none_left → fault ≢ no_memory };

    fn from(fault: LiteralFault) -> LineFault {
        match fault {
            LiteralFault::OutOfMemory => LineFault::OutOfMemory,
            _ => LineFault::Unreadable(DumpReason::NoValue(fault)),
        }
    }
}

impl LineFault {
    /// The fault of the text whose line at the place `at` has this fault: NotADump with the number of the line, or OutOfMemory.
    pub(crate) fn within(self, text: &[u8], at: usize) -> LoadFault
        // The text has the place.
        requires { at ≤ length text.now }
        // The text has a line of the number.
        ensures says { SaysOfText text.now result }
        // The fault is OutOfMemory if that of the line is.
        ensures line { result ≢ OutOfMemory → self ≢ none_left }
    {
        match self {
            LineFault::Unreadable(why) => LoadFault::NotADump(line_at(text, at), why),
            LineFault::OutOfMemory => LoadFault::OutOfMemory,
        }
    }
}
