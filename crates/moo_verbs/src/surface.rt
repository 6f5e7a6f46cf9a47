//! The program doesn't come this way. The project's requirements name this call. The program reads rights by `VerbBits::read`.

ghost use Rattle.std.specs.Prelude.{◌≡◌, ok_or};
ghost use Rattle.moo_rows.specs.Bits.{verb_bits_of};

use crate::fault::VerbFault;
use moo_rows::VerbBits;
use moo_value::MooStr;

/// The rights that a text of the letters `r`, `w`, `x` and `d` gives, in any order and case, and more than once. `BadBits` if another byte
/// is in it.
///
/// LambdaMOO Programmer's Manual, 'Verbs on Objects' in the chapter on the database.
pub fn read_bits(text: &MooStr) -> Result<VerbBits, VerbFault>
    ensures { result ≡ ok_or (verb_bits_of text.now) VerbFault.BadBits }
{
    VerbBits::read(text).ok_or(VerbFault::BadBits)
}
