//! Reading the whole text that a reader gives.

ghost use Rattle.std.specs.{Prelude.{◌≡◌, ◌≤◌, ◌<◌, length, IfOk, IfErr, IfSome, OnOk}, Io.KnownBytes.{Consumes, IsAtEnd}};
ghost use Rattle.moo_load.specs.declared.input.InputFault.TheVariants.{TooLong, OutOfMemory};

use moo_text::LONGEST_TEXT;
use std::alloc::{AllocError, Global};
use std::io::Read;

/// How many bytes are asked for at once.
const PIECE: usize = 65536;

/// Why a reader gives no text.
#[derive(Clone, Copy)]
pub enum InputFault {
    /// The reader failed.
    Read,
    /// The reader gave more than 1,073,741,824 bytes.
    TooLong,
    /// Memory ran out.
    OutOfMemory,
}

impl From<AllocError> for InputFault {
    ghost from_gives = { λ _ e. e ≡ OutOfMemory };

    fn from(_e: AllocError) -> InputFault {
        InputFault::OutOfMemory
    }
}

/// The bytes that a reader gives, to its end.
///
/// Errors: `Read` if the reader fails, also if it was interrupted; `TooLong` if it gives more than 1,073,741,824 bytes, of which
/// one more is read; `OutOfMemory` if memory runs out.
pub fn read_text<R: Read>(alloc: Global, reader: &mut R) -> Result<Vec<u8>, InputFault>
    // The text is the bytes that the reader gave.
    ensures given { IfOk result (λ text. Consumes (R.remaining reader.old) (R.remaining reader.new) text.items) }
    // The reader has no byte left to give, if it is known what it has left.
    ensures end { OnOk result (IsAtEnd (R.remaining reader.new)) }
    // If it is known what the reader had left to give, the text is all of it.
    ensures whole { IfOk result (λ text. IfSome (R.remaining reader.old) (λ bytes. text.items ≡ bytes)) }
    // The text has at most 1,073,741,824 bytes.
    ensures limit { IfOk result (λ text. length text.items ≤ LONGEST_TEXT) }
    // If it is known what the reader had left to give, the fault is TooLong only if that was more than 1,073,741,824 bytes.
    ensures long { IfErr result (λ fault. fault ≡ TooLong → IfSome (R.remaining reader.old) (λ bytes. LONGEST_TEXT < length bytes)) }
{
    let mut text = Vec::new(alloc);
    let mut piece = [0; PIECE];
    while text.len() <= LONGEST_TEXT {
        // One byte more than the limit, by which a text is seen to be too long.
        let room = (LONGEST_TEXT + 1 - text.len()).min(piece.len());
        let Ok(count) = reader.read(&mut piece[..room]) else {
            return Err(InputFault::Read);
        };
        if count == 0 {
            return Ok(text);
        }
        text.extend_from_slice(&piece[..count])?;
    }
    Err(InputFault::TooLong)
}
