//! Reading what is given for a verb: its names, its rights and its arguments.

ghost use Rattle.std.specs.{Prelude.{◌≡◌, ◌==◌, Ok, Err, ok_or, if◌then◌else◌}, List.{before_first}};
ghost use Rattle.moo_value.specs.Text.{IsText};
ghost use Rattle.moo_rows.specs.Bits.{verb_bits_of, verb_letters_of};
ghost use Rattle.moo_world.specs.{World.{has_word}, VerbReading.{is_slash, has_phrase, first_with, prep_of, object_spec_of, args_of}};

use crate::fault::VerbFault;
use crate::matching::{first_byte, same_name};
use crate::prep::set_text;
use moo_rows::{ArgSpec, ObjectSpec, Preposition, PrepositionSet, VerbBits};
use moo_value::MooStr;

/// Whether the names of a verb have a word: a byte that isn't a space.
fn has_word(names: &[u8]) -> bool
    ensures { result ≡ has_word names.now }
{
    names.iter().any(|byte| *byte != b' ')
}

/// Refuses the names of a verb that are empty or all spaces, by BadNames. Any other text is taken; a tab isn't a space.
///
/// LambdaMOO Programmer's Manual, 'Operations on Verbs': `add_verb`.
pub fn check_names(names: &MooStr) -> Result<(), VerbFault>
    ensures { result ≡ (if has_word names.now then Ok tt else Err VerbFault.BadNames) }
{
    if has_word(names.bytes()) {
        Ok(())
    } else {
        Err(VerbFault::BadNames)
    }
}

/// The letters of the rights, in the order `rwxd`.
///
/// LambdaMOO Programmer's Manual, 'Operations on Verbs': `verb_info`.
pub fn bits_letters(bits: VerbBits) -> &'static str
    ensures letters { result.now ≡ verb_letters_of bits }
    // A string may hold them.
    ensures text { IsText result.now }
    // Read again, they are the rights.
    ensures read_again { verb_bits_of result.now ≡ Some bits }
{
    bits.letters()
}

/// Every set, in the order of the enum.
pub(crate) const ALL_SETS: [PrepositionSet; 15] = [
    PrepositionSet::With,
    PrepositionSet::At,
    PrepositionSet::InFrontOf,
    PrepositionSet::In,
    PrepositionSet::OnTopOf,
    PrepositionSet::OutOf,
    PrepositionSet::Over,
    PrepositionSet::Through,
    PrepositionSet::Under,
    PrepositionSet::Behind,
    PrepositionSet::Beside,
    PrepositionSet::For,
    PrepositionSet::Is,
    PrepositionSet::As,
    PrepositionSet::Off,
];

/// Whether a phrase, in any case, is one of a set.
fn has_phrase(set: PrepositionSet, phrase: &[u8]) -> bool
    ensures { result ≡ has_phrase set phrase.now }
{
    set_text(set)
        .as_bytes()
        .split(|byte| *byte == b'/')
        .any(|other| same_name(other, phrase))
}

/// The first of these sets that has the phrase, in any case; `None` if no set has it.
fn first_with(sets: &[PrepositionSet], phrase: &[u8]) -> Option<PrepositionSet>
    ensures { result ≡ first_with sets.now phrase.now }
{
    sets.iter().copied().find(|set| has_phrase(*set, phrase))
}

/// The bytes before the first slash of a text; the whole text if it has no slash.
fn before_slash(text: &[u8]) -> &[u8]
    ensures { result.now ≡ before_first is_slash text.now }
{
    match first_byte(text, b'/') {
        None => text,
        Some(slash) => &text[..slash],
    }
}

/// The preposition that a text names, as `read_prep` says; `None` if it names no preposition.
fn prep_of(text: &[u8]) -> Option<Preposition>
    ensures { result ≡ prep_of text.now }
{
    if same_name(text, b"none") {
        return Some(Preposition::None);
    }
    if same_name(text, b"any") {
        return Some(Preposition::Any);
    }
    first_with(&ALL_SETS, before_slash(text)).map(Preposition::Set)
}

/// The object specifier that a text names, in any case: `this`, `any` or `none`; `None` for anything else.
fn object_spec_named(text: &[u8]) -> Option<ObjectSpec>
    ensures { result ≡ object_spec_of text.now }
{
    if same_name(text, b"this") {
        return Some(ObjectSpec::This);
    }
    if same_name(text, b"any") {
        return Some(ObjectSpec::Any);
    }
    if same_name(text, b"none") {
        return Some(ObjectSpec::None);
    }
    None
}

/// The arguments that three texts name, as `read_args` says; `None` if one of them names nothing.
fn args_named(dobj: &[u8], prep: &[u8], iobj: &[u8]) -> Option<ArgSpec>
    ensures { result ≡ args_of dobj.now prep.now iobj.now }
{
    let dobj = object_spec_named(dobj)?;
    let prep = prep_of(prep)?;
    let iobj = object_spec_named(iobj)?;
    Some(ArgSpec { dobj, prep, iobj })
}

/// The preposition that a text names, in any case: `none`, `any`, or one phrase of a set, with single spaces between its
/// words. A slash and all after it are dropped from a phrase, so that `in/inside/into` names the set of `in`; `none` and
/// `any` stand alone. Anything else is BadArgs.
///
/// LambdaMOO Programmer's Manual, 'Operations on Verbs': `set_verb_args`.
pub fn read_prep(text: &MooStr) -> Result<Preposition, VerbFault>
    ensures { result ≡ ok_or (prep_of text.now) VerbFault.BadArgs }
{
    prep_of(text.bytes()).ok_or(VerbFault::BadArgs)
}

/// The arguments that three texts name, in any case: `this`, `any` or `none` for the direct and the indirect object, and
/// between them a preposition as `read_prep` takes it. Anything else is BadArgs.
///
/// LambdaMOO Programmer's Manual, 'Operations on Verbs': `set_verb_args`.
pub fn read_args(dobj: &MooStr, prep: &MooStr, iobj: &MooStr) -> Result<ArgSpec, VerbFault>
    ensures { result ≡ ok_or (args_of dobj.now prep.now iobj.now) VerbFault.BadArgs }
{
    args_named(dobj.bytes(), prep.bytes(), iobj.bytes()).ok_or(VerbFault::BadArgs)
}
