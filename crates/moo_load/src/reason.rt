//! What is wrong with a line that no dump has.

use moo_rows::{Bits, Preposition, PropId, VerbBits};
use moo_value::{LiteralFault, ObjNo};

/// What is wrong with a line that no dump has, as the check says that refuses it. A value of a line is named by a word.
#[derive(Clone, Copy)]
pub enum DumpReason {
    /// No line end follows.
    NoEnd,
    /// It isn't a line of the heading: the first is `seq` with a number, the second `top` with an object.
    NoHeading,
    /// It begins with no word of a row and a space.
    NoRow,
    /// No `{` follows the word and its space.
    NoList,
    /// A value can't be read.
    NoValue(LiteralFault),
    /// A value is followed by something else than `, ` or the `}` that ends the line.
    NoSeparator,
    /// The list has another number of values than this says: `an object has 12 values`.
    Count(&'static str),
    /// The value of this name isn't an object.
    NoObject(&'static str),
    /// The value of this name isn't a text.
    NoText(&'static str),
    /// The value of this name isn't 0 or 1.
    NoFlag(&'static str),
    /// The accept list is neither 0 nor a list of up to 1,000 objects.
    NoAcceptList,
    /// No property can have the name.
    NoPropertyName,
    /// No verb can have the names.
    NoVerbNames,
    /// The text isn't of the letters `r`, `w` and `c`.
    NoLetters,
    /// The text isn't of the letters `r`, `w`, `x` and `d`.
    NoVerbLetters,
    /// A dump writes the letters of these rights on a property in another way.
    Letters(Bits),
    /// A dump writes the letters of these rights on a verb in another way.
    VerbLetters(VerbBits),
    /// The text of this name isn't `this`, `any` or `none`.
    NoObjectSpec(&'static str),
    /// The text isn't a preposition.
    NoPreposition,
    /// A dump writes this preposition in another way.
    Preposition(Preposition),
    /// What follows the letters of a slot is neither 0 nor 1 with a value.
    NoState,
    /// The number of a petition isn't 1 to 4,294,967,294.
    NoPetition,
    /// A petition can't hold these calls.
    NoCalls,
    /// No number is left for another property or verb.
    NoNumber,
    /// The definer of a slot's property isn't an object of the dump.
    NoDefiner(ObjNo),
    /// The slot of this property comes next, of all that its definer has given the object.
    SlotFirst(PropId),
    /// The definer of a slot's property has no further property.
    NoProperty,
    /// The line of this number belongs here.
    LineFirst(u64),
    /// A dump writes the line in another way after so many bytes.
    Spelling(usize),
    /// The dump has ended before it.
    AfterEnd,
    /// It differs from the dump's, and memory ran out before it was known how.
    Differs,
}
