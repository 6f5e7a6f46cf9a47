//! Reading the values of a verb's line.

ghost use Rattle.std.specs.Prelude.{◌≡◌, ◌≢◌, true, IfOk, IfErr};
ghost use Rattle.moo_value.specs.{declared.value.ObjNo.{ObjNo}, declared.value.Value.TheVariants.{Str}};
ghost use Rattle.moo_rows.specs.{declared.row.ObjectSpec.{ObjectSpec}, declared.row.Preposition.{Preposition}};
ghost use Rattle.moo_rows.specs.{declared.row.VerbBits.{VerbBits}, declared.row.VerbRow.{VerbRow}, Bits.{verb_letters_of}};
ghost use Rattle.moo_dump.specs.Dump.{verb_values};
ghost use Rattle.moo_world.specs.{Prepositions.{prep_text, object_spec_text}, World.{verb_fits}};

use crate::fault::{LineFault, LineResult};
use crate::reason::DumpReason;
use crate::value::{object_of, text_of};
use moo_rows::{ArgSpec, ObjectSpec, Preposition, VerbBits, VerbRow};
use moo_value::{MooStr, ObjNo, Value};
use moo_verbs::{check_names, read_object_spec_cell, read_prep, read_prep_cell};
use std::alloc::Global;

/// The specifier of a direct or an indirect object that a string spells: `this`, `any` or `none`. NoText or NoObjectSpec, with the word
/// `what` for the value, if it spells none.
fn object_spec_of(value: &Value, what: &'static str) -> LineResult<ObjectSpec>
    ensures shown { IfOk result (λ place. value.now ≡ Str (object_spec_text place)) }
    // There is a fault only if the value spells none.
    ensures err { IfErr result (λ _. (place : ObjectSpec) → value.now ≢ Str (object_spec_text place)) }
{
    let spec = read_object_spec_cell(text_of(value, what)?.bytes());
    spec.ok_or(LineFault::Unreadable(DumpReason::NoObjectSpec(what)))
}

/// Why a text isn't a preposition as a dump writes it: it isn't a preposition, or a dump writes the whole set.
fn preposition_reason(text: &MooStr) -> DumpReason {
    match read_prep(text) {
        Ok(preposition) => DumpReason::Preposition(preposition),
        Err(_) => DumpReason::NoPreposition,
    }
}

/// The preposition that a string spells as a dump writes it, by its whole set with slashes. NoText, NoPreposition or Preposition for any
/// other value.
fn prep_of(value: &Value) -> LineResult<Preposition>
    ensures shown { IfOk result (λ prep. value.now ≡ Str (prep_text prep)) }
    // There is a fault only if the value spells none.
    ensures err { IfErr result (λ _. (prep : Preposition) → value.now ≢ Str (prep_text prep)) }
{
    let text = text_of(value, "preposition")?;
    match read_prep_cell(text.bytes()) {
        Some(prep) => Ok(prep),
        None => Err(LineFault::Unreadable(preposition_reason(text))),
    }
}

/// The rights on a verb that a string spells, in the order `rwxd`. NoText, NoVerbLetters, or VerbLetters if they are in another order.
fn bits_of(value: &Value) -> LineResult<VerbBits>
    ensures shown { IfOk result (λ bits. value.now ≡ Str (verb_letters_of bits)) }
    // There is a fault only if the value isn't the string of such letters.
    ensures err { IfErr result (λ _. (bits : VerbBits) → value.now ≢ Str (verb_letters_of bits)) }
{
    let text = text_of(value, "letters")?;
    match VerbBits::read(text) {
        Some(bits) if bits.letters().as_bytes() == text.bytes() => Ok(bits),
        Some(bits) => Err(LineFault::Unreadable(DumpReason::VerbLetters(bits))),
        None => Err(LineFault::Unreadable(DumpReason::NoVerbLetters)),
    }
}

/// The object and the row of a verb, from the values of its line. The error is the first value, from left to right, that isn't as a dump
/// has it, or their count; or OutOfMemory.
pub(crate) fn read_verb(alloc: Global, values: &[Value]) -> LineResult<(ObjNo, VerbRow)>
    // The values are those of the verb's line.
    ensures shown { IfOk result (λ r. values.now ≡ verb_values r.0 r.1) }
    // The verb is within the limits of its columns.
    ensures fits { IfOk result (λ r. verb_fits r.1 ≡ true) }
    // There is a fault, but for out of memory, only if the values aren't those of the line of a verb within its limits.
    ensures err { IfErr result (λ fault. fault ≢ LineFault.OutOfMemory → (x : ObjNo) (row : VerbRow) → verb_fits row ≡ true →
        values.now ≢ verb_values x row) }
{
    let [object, names, owner, letters, dobj, prep, iobj] = values else {
        return Err(LineFault::Unreadable(DumpReason::Count("a verb has 7 values")));
    };
    let object = object_of(object, "object")?;
    let names = text_of(names, "names")?;
    if check_names(names).is_err() {
        return Err(LineFault::Unreadable(DumpReason::NoVerbNames));
    }
    let row = VerbRow {
        names: names.copy(alloc)?,
        owner: object_of(owner, "owner")?,
        bits: bits_of(letters)?,
        args: ArgSpec {
            dobj: object_spec_of(dobj, "direct object")?,
            prep: prep_of(prep)?,
            iobj: object_spec_of(iobj, "indirect object")?,
        },
    };
    Ok((object, row))
}
