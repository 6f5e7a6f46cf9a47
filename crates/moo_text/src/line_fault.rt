//! Why a line can't be read.

ghost use Rattle.std.specs.Prelude.{◌≡◌};
ghost use Rattle.moo_text.specs.declared.line_fault.LineFault.TheVariants.{OutOfMemory};

use moo_value::LiteralFault;
use std::alloc::AllocError;

/// Why a line isn't a header, or isn't a call: the first fault from left to right. The bytes are those of the line from the fault on, or a
/// word of it.
#[derive(Clone, Copy)]
pub enum LineFault<'a> {
    /// It has over 262,144 bytes.
    Long,
    /// The first word of a header isn't `batch`.
    NoBatch,
    /// The second word isn't `as`.
    NoAs,
    /// Nothing follows `batch as`.
    NoProgrammer,
    /// This word is in the place of the programmer, and isn't an object.
    NoObject(&'a [u8]),
    /// This word follows the programmer, and isn't `at`.
    NoAt(&'a [u8]),
    /// What follows `at` isn't one number that may be there.
    NoPlace,
    /// No name of a call is here.
    NoName(&'a [u8]),
    /// No `(` follows the name, which is this word.
    NoBracket(&'a [u8]),
    /// No value is here.
    NoValue(&'a [u8], LiteralFault),
    /// Neither a comma nor this mark is here, after a value.
    NoMark(u8, &'a [u8]),
    /// More than blanks is here, after the `)` of a call.
    NoEnd(&'a [u8]),
    /// Memory ran out.
    OutOfMemory,
}

impl<'a> From<AllocError> for LineFault<'a> {
    ghost from_gives = { λ _ e. e ≡ OutOfMemory };

    fn from(_e: AllocError) -> LineFault<'a> {
        LineFault::OutOfMemory
    }
}
