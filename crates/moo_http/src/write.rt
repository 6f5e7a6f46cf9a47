//! Bytes to a writer.

ghost use Rattle.std.specs.Prelude.{◌≡◌, IfErr};
ghost use Rattle.moo_http.specs.Serves.{Written};

use crate::fault::ServeFault;
use moo_text::put_all;
use std::io::Write;

/// Writes the bytes of an answer. Write if the writer fails or takes none: the beginning of them is written then.
pub(crate) fn write_out<W: Write>(writer: &mut W, bytes: &[u8]) -> Result<(), ServeFault>
    ensures written { Written result (W.contents writer.old) (W.contents writer.new) bytes.now }
    ensures fault { IfErr result (λ fault. fault ≡ ServeFault.Write) }
{
    match put_all(writer, bytes) {
        Ok(()) => Ok(()),
        Err(_) => Err(ServeFault::Write),
    }
}
