//! The lines of a dump.

ghost use Rattle.std.specs.Prelude.{◌≡◌, ◌++◌, OnOk, IfOk};
ghost use Rattle.moo_value.specs.Text.{IsText};
ghost use Rattle.moo_dump.specs.Dump.{line, object_line, property_line, slot_line, verb_line, petition_line};
ghost use Rattle.moo_world.specs.{Prepositions.{object_spec_text, prep_text}, Rows.{slot_seen}};

use moo_rows::{ArgSpec, ObjRow, PetitionId, PetitionRow, PropRow, SlotRow, SlotState, VerbRow};
use moo_value::{MooStr, ObjNo, Value, print_literal};
use moo_verbs::{bits_letters, print_object_spec, print_prep};
use moo_world::{accept_value, flag, list_of};
use std::alloc::{AllocError, Global};

/// Appends a line of a word and a literal list of values. The only error is a lack of memory; some of the bytes may be there then.
fn put_line(
    alloc: Global,
    word: &[u8],
    values: Vec<Value>,
    out: &mut Vec<u8>,
) -> Result<(), AllocError>
    ensures { OnOk result (out.new.items ≡ out.old.items ++ line word.now values.items) }
{
    let list = list_of(values);
    out.extend_from_slice(word)?;
    out.extend_from_slice(b" ")?;
    print_literal(alloc, &list, out)?;
    out.extend_from_slice(b"\n")
}

/// The string of a text that the server itself writes. The only error is a lack of memory.
fn string(alloc: Global, text: &str) -> Result<Value, AllocError>
    // The text has only characters that a string may have.
    requires { IsText text.now }
    ensures { IfOk result (λ v. v ≡ Value.Str text.now) }
{
    let bytes = text.as_bytes().to_vec(alloc)?;
    Ok(Value::Str(MooStr::from_vec(bytes)))
}

/// Appends the line of an object. The only error is a lack of memory; some of the bytes may be there then.
pub(crate) fn put_object_line(
    alloc: Global,
    x: ObjNo,
    row: &ObjRow,
    out: &mut Vec<u8>,
) -> Result<(), AllocError>
    ensures { OnOk result (out.new.items ≡ out.old.items ++ object_line x row.now) }
{
    let name = row.name.copy(alloc)?;
    let accept = accept_value(alloc, &row.accept)?;
    let values = vec![in alloc;
        Value::Obj(x),
        Value::Str(name),
        Value::Obj(row.owner),
        Value::Obj(row.parent),
        Value::Obj(row.location),
        flag(row.player),
        flag(row.programmer),
        flag(row.wizard),
        flag(row.r),
        flag(row.w),
        flag(row.f),
        accept,
    ]?;
    put_line(alloc, b"object", values, out)
}

/// Appends the line of a property that x defines. The only error is a lack of memory.
pub(crate) fn put_property_line(
    alloc: Global,
    x: ObjNo,
    name: &MooStr,
    out: &mut Vec<u8>,
) -> Result<(), AllocError>
    ensures { OnOk result (out.new.items ≡ out.old.items ++ property_line x name.now) }
{
    let name = name.copy(alloc)?;
    let values = vec![in alloc; Value::Obj(x), Value::Str(name)]?;
    put_line(alloc, b"property", values, out)
}

/// Appends the line of the slot of a property on x. The only error is a lack of memory.
pub(crate) fn put_slot_line(
    alloc: Global,
    x: ObjNo,
    property: &PropRow,
    slot: &SlotRow,
    out: &mut Vec<u8>,
) -> Result<(), AllocError>
    ensures { OnOk result (out.new.items
        ≡ out.old.items ++ slot_line x (property.now.definer, property.now.name) (slot_seen property.now.definer slot.now)) }
{
    let name = property.name.copy(alloc)?;
    let letters = string(alloc, slot.bits.letters())?;
    let mut values = vec![in alloc;
        Value::Obj(x),
        Value::Obj(property.definer),
        Value::Str(name),
        Value::Obj(slot.owner),
        letters,
    ]?;
    match &slot.state {
        SlotState::Clear => values.push(Value::Int(0))?,
        SlotState::Set(value) => {
            values.push(Value::Int(1))?;
            values.push(value.copy(alloc)?)?;
        }
    }
    put_line(alloc, b"slot", values, out)
}

/// The argument specifiers of a verb as strings: the direct object, the preposition and the indirect object. AllocError: memory ran out.
fn arg_strings(alloc: Global, args: ArgSpec) -> Result<(Value, Value, Value), AllocError>
    ensures dobj { IfOk result (λ texts. texts.0 ≡ Value.Str (object_spec_text args.dobj)) }
    ensures prep { IfOk result (λ texts. texts.1 ≡ Value.Str (prep_text args.prep)) }
    ensures iobj { IfOk result (λ texts. texts.2 ≡ Value.Str (object_spec_text args.iobj)) }
{
    let dobj = string(alloc, print_object_spec(args.dobj))?;
    let prep = string(alloc, print_prep(args.prep))?;
    let iobj = string(alloc, print_object_spec(args.iobj))?;
    Ok((dobj, prep, iobj))
}

/// Appends the line of a verb of x. The only error is a lack of memory.
pub(crate) fn put_verb_line(
    alloc: Global,
    x: ObjNo,
    verb: &VerbRow,
    out: &mut Vec<u8>,
) -> Result<(), AllocError>
    ensures { OnOk result (out.new.items ≡ out.old.items ++ verb_line x verb.now) }
{
    let names = verb.names.copy(alloc)?;
    let letters = string(alloc, bits_letters(verb.bits))?;
    let (dobj, prep, iobj) = arg_strings(alloc, verb.args)?;
    let values = vec![in alloc;
        Value::Obj(x),
        Value::Str(names),
        Value::Obj(verb.owner),
        letters,
        dobj,
        prep,
        iobj,
    ]?;
    put_line(alloc, b"verb", values, out)
}

/// The line of a petition. The only error is a lack of memory.
pub(crate) fn petition_line(
    alloc: Global,
    id: PetitionId,
    row: &PetitionRow,
) -> Result<Vec<u8>, AllocError>
    ensures { IfOk result (λ text. text.items ≡ petition_line (id, row.now)) }
{
    let calls = row.calls.clone()?;
    let values = vec![in alloc;
        Value::Int(i64::from(id.0)),
        Value::Obj(row.who),
        Value::List(calls),
    ]?;
    let mut text = Vec::new(alloc);
    put_line(alloc, b"petition", values, &mut text)?;
    Ok(text)
}
