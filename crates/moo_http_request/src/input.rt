//! Bytes of a connection, read in pieces and no further than a limit.

ghost use Rattle.std.specs.{Prelude.{◌≡◌, ◌≤◌, ◌<◌, ◌+◌, ◌-◌, max, length, true, false, IfOk, OnOk, IfErr, OnErr}, Io.KnownBytes.{IsAtEnd}};
ghost use Rattle.moo_http_request.specs.Given.{Grows, HasFailed, TakesAtMost};

use crate::fault::ReadFault;
use crate::incoming::Incoming;

/// How many bytes are read at once.
const PIECE: usize = 1024;

/// Reads up to 1,024 bytes, and adds them to the bytes, which stay within the limit. `false` is the end of the input. Read if the reader
/// fails; OutOfMemory if memory runs out.
pub(crate) fn read_more<R: Incoming>(
    reader: &mut R,
    bytes: &mut Vec<u8>,
    limit: usize,
) -> Result<bool, ReadFault>
    // There is room below the limit.
    requires { length bytes.old.items < limit }
    // What the reader gave follows the bytes that were there.
    ensures grows { OnOk result (Grows (R.remaining reader.old) (R.remaining reader.new) bytes.old.items bytes.new.items) }
    ensures more { IfOk result (λ more. more ≡ true →
        (length bytes.old.items < length bytes.new.items) × (length bytes.new.items ≤ limit)) }
    ensures piece { OnOk result (length bytes.new.items ≤ length bytes.old.items + 1024) }
    // At the end no bytes came, and the reader has none left.
    ensures end { IfOk result (λ more. more ≡ false →
        (bytes.new.items ≡ bytes.old.items) × IsAtEnd (R.remaining reader.new)) }
    // After a fault the reader gave no more than there was room for.
    ensures breaks { OnErr result (TakesAtMost (limit - length bytes.old.items) (R.remaining reader.old) (R.remaining reader.new)) }
    // Read is answered only if the reader failed.
    ensures cause { IfErr result (λ fault. fault ≡ ReadFault.Read → HasFailed R.fails reader.new) }
{
    let mut piece = [0; PIECE];
    let room = (limit - bytes.len()).min(piece.len());
    let Ok(count) = reader.receive(&mut piece[..room]) else {
        return Err(ReadFault::Read);
    };
    bytes.extend_from_slice(&piece[..count])?;
    Ok(count > 0)
}

/// Reads on until `limit` bytes are there, and no more. `false` is an input that ends before. Read if the reader fails; OutOfMemory if
/// memory runs out.
pub(crate) fn read_until<R: Incoming>(
    reader: &mut R,
    bytes: &mut Vec<u8>,
    limit: usize,
) -> Result<bool, ReadFault>
    // What the reader gave follows the bytes that were there.
    ensures grows { OnOk result (Grows (R.remaining reader.old) (R.remaining reader.new) bytes.old.items bytes.new.items) }
    // No byte past the limit is read.
    ensures few { OnOk result (length bytes.new.items ≤ max (length bytes.old.items) limit) }
    ensures whole { IfOk result (λ whole. whole ≡ true → limit ≤ length bytes.new.items) }
    // An input that ends before the limit has nothing left.
    ensures end { IfOk result (λ whole. whole ≡ false →
        (length bytes.new.items < limit) × IsAtEnd (R.remaining reader.new)) }
    // After a fault the reader gave no more bytes than the limit still left.
    ensures breaks { OnErr result (TakesAtMost (limit - length bytes.old.items) (R.remaining reader.old) (R.remaining reader.new)) }
    // Read is answered only if the reader failed.
    ensures cause { IfErr result (λ fault. fault ≡ ReadFault.Read → HasFailed R.fails reader.new) }
{
    'pieces: while bytes.len() < limit {
        if !read_more(reader, bytes, limit)? {
            return Ok(false);
        }
    }
    Ok(true)
}
