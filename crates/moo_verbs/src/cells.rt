//! The arguments of verbs as the cells of a table spell them: exactly as they are printed, and not as calls may give them.

ghost use Rattle.std.specs.{Prelude.{◌≡◌, Some, IfSome}, List.{find}, Str.{bytes_eq}};
ghost use Rattle.moo_rows.specs.{declared.row.ObjectSpec.{ObjectSpec}, declared.row.Preposition.{Preposition}};
ghost use Rattle.moo_world.specs.Prepositions.{set_text, prep_text, object_spec_text};

use crate::prep::set_text;
use crate::reading::ALL_SETS;
use moo_rows::{ObjectSpec, Preposition, PrepositionSet};

/// The object specifier that the bytes spell in lower case: `this`, `any` or `none`; `None` for anything else. Takes no memory.
pub fn read_object_spec_cell(bytes: &[u8]) -> Option<ObjectSpec>
    // The bytes are the text of the object specifier found.
    ensures found { IfSome result (λ it. bytes.now ≡ object_spec_text it) }
    // The text of each object specifier is read as it.
    ensures only { (it : ObjectSpec) → bytes.now ≡ object_spec_text it → result ≡ Some it }
{
    if bytes == b"this".as_slice() {
        return Some(ObjectSpec::This);
    }
    if bytes == b"any".as_slice() {
        return Some(ObjectSpec::Any);
    }
    if bytes == b"none".as_slice() {
        return Some(ObjectSpec::None);
    }
    None
}

/// The first of these sets whose phrases, with slashes between them, are the bytes; `None` if no set is written so. Takes no memory.
fn set_spelled(sets: &[PrepositionSet], bytes: &[u8]) -> Option<PrepositionSet>
    // The answer is the first of the sets whose text the bytes are.
    ensures first { result ≡ find (λ set. bytes_eq (set_text set) bytes.now) sets.now }
    // The bytes are the text of the set found.
    ensures found { IfSome result (λ set. bytes.now ≡ set_text set) }
{
    sets.iter()
        .copied()
        .find(|set| set_text(*set).as_bytes() == bytes)
}

/// The preposition that the bytes spell in lower case: `none`, `any`, or all phrases of a set with slashes between them;
/// `None` for anything else, such as one phrase of a set that has more. Takes no memory.
pub fn read_prep_cell(bytes: &[u8]) -> Option<Preposition>
    // The bytes are the text of the preposition found.
    ensures found { IfSome result (λ prep. bytes.now ≡ prep_text prep) }
    // The text of each preposition is read as it.
    ensures only { (prep : Preposition) → bytes.now ≡ prep_text prep → result ≡ Some prep }
{
    if bytes == b"none".as_slice() {
        return Some(Preposition::None);
    }
    if bytes == b"any".as_slice() {
        return Some(Preposition::Any);
    }
    set_spelled(&ALL_SETS, bytes).map(Preposition::Set)
}
