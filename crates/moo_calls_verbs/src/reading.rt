//! Reading verbs.

ghost use Rattle.std.specs.Prelude.{◌≡◌, [], ◌∷◌, IfOk, IfErr};
ghost use Rattle.moo_value.specs.{Text.{IsText}, declared.value.Value.TheVariants.{Obj, Str}};
ghost use Rattle.moo_rows.specs.{Bits.{verb_letters_of}, declared.row.VerbRow.{VerbRow}};
ghost use Rattle.moo_world.specs.{Rows.{IsGood}, Answers.{list_of}, Outcomes.{Outcome, fails}, World.{World}};
ghost use Rattle.moo_world.specs.{Prepositions.{prep_text, object_spec_text}, VerbCalls.{verbs, verb_info, verb_args}};
ghost use Rattle.moo_calls_shared.specs.Outcomes.{world_in, Answers};
ghost use Rattle.moo_calls_verbs.specs.Checks.{reading_verb};

use moo_calls_shared::{Fault, Reason, rights};
use moo_rows::{ArgSpec, Rows, VerbRow};
use moo_tree::valid;
use moo_value::{MooStr, ObjNo, Value};
use moo_verbs::{bits_letters, found_verb, print_object_spec, print_prep};
use moo_world::{Desc, list_of, text_list};
use std::alloc::{AllocError, Global};

/// `verbs(x)`: answers the names of the verbs of an object, each string whole as given, in the order of the directory.
/// E_INVARG if x isn't an object; E_PERM if the programmer may not read it.
/// LambdaMOO Programmer's Manual, 'Operations on Verbs'.
pub fn verbs<R: Rows>(rows: &R, alloc: Global, programmer: ObjNo, x: ObjNo) -> Result<Value, Fault>
    // The rows are good: sound rows of a well formed world, and petitions as they may be beside it.
    requires { IsGood (R.held rows.now).maps }
    // The answer, or the error, is that of the definition `verbs`.
    ensures comes { Answers (verbs (world_in (R.held rows.now)) programmer x) (R.held rows.now) result }
{
    if !valid(rows, x) {
        return Err(Fault::Moo(Reason::NoObject(x)));
    }
    if !rights::may_read_object(rows, programmer, x) {
        return Err(Fault::Moo(Reason::NoObjectR(x)));
    }
    let names = moo_verbs::list(alloc, rows, x)?;
    let answer = text_list(alloc, names)?;
    Ok(answer)
}

/// A string of a text that the server itself writes. The only error is a lack of memory.
fn text(alloc: Global, text: &'static str) -> Result<MooStr, AllocError>
    // The text has only characters that a string may have.
    requires { IsText text.now }
    ensures { IfOk result (λ s. s ≡ text.now) }
{
    let bytes = text.as_bytes().to_vec(alloc)?;
    Ok(MooStr::from_vec(bytes))
}

/// The verb that a call on x reads, or the error: E_INVARG if x isn't an object, then E_VERBNF if no verb of x itself is
/// meant, then E_PERM if the programmer may not read the verb.
fn readable_verb<'a, R: Rows>(
    rows: &'a R,
    programmer: ObjNo,
    x: ObjNo,
    desc: &Desc,
) -> Result<&'a VerbRow, Reason>
    // The rows are good: sound rows of a well formed world, and petitions as they may be beside it.
    requires { IsGood (R.held rows.now).maps }
    // Each call that reads the verb goes on with the verb that was found.
    ensures ok { IfOk result (λ verb. (then : VerbRow → Outcome World) →
        reading_verb (world_in (R.held rows.now)) programmer x desc.now then ≡ then verb.now) }
    // At an error, each call that reads the verb fails for the reason.
    ensures err { IfErr result (λ reason. (then : VerbRow → Outcome World) →
        reading_verb (world_in (R.held rows.now)) programmer x desc.now then ≡ fails reason) }
{
    if !valid(rows, x) {
        return Err(Reason::NoObject(x));
    }
    let Some(found) = found_verb(rows, x, desc) else {
        return Err(Reason::NoVerb(x));
    };
    if !rights::may_read_verb(rows, programmer, found.row) {
        return Err(Reason::NoVerbR(x));
    }
    Ok(found.row)
}

/// The answer of `verb_info`: `{owner, perms, names}` of a verb. The only error is a lack of memory.
fn info_of(alloc: Global, verb: &VerbRow) -> Result<Value, AllocError>
    ensures { IfOk result (λ value. value
        ≡ list_of (Obj verb.now.owner ∷ Str (verb_letters_of verb.now.bits) ∷ Str verb.now.names ∷ [])) }
{
    let perms = text(alloc, bits_letters(verb.bits))?;
    let names = verb.names.copy(alloc)?;
    let values = vec![in alloc;
        Value::Obj(verb.owner),
        Value::Str(perms),
        Value::Str(names),
    ]?;
    Ok(list_of(values))
}

/// `verb_info(x, desc)`: answers `{owner, perms, names}` of a verb, the letters of the rights in the order `rwxd`.
/// E_INVARG if x isn't an object; E_VERBNF if no verb of x itself is meant; E_PERM if the programmer may not read the verb.
/// LambdaMOO Programmer's Manual, 'Operations on Verbs'.
pub fn verb_info<R: Rows>(
    rows: &R,
    alloc: Global,
    programmer: ObjNo,
    x: ObjNo,
    desc: &Desc,
) -> Result<Value, Fault>
    // The rows are good: sound rows of a well formed world, and petitions as they may be beside it.
    requires { IsGood (R.held rows.now).maps }
    // The answer, or the error, is that of the definition `verb_info`.
    ensures comes { Answers (verb_info (world_in (R.held rows.now)) programmer x desc.now) (R.held rows.now) result }
{
    let verb = readable_verb(rows, programmer, x, desc)?;
    let answer = info_of(alloc, verb)?;
    Ok(answer)
}

/// The answer of `verb_args`: `{dobj, prep, iobj}` of a verb. The only error is a lack of memory.
fn args_answer(alloc: Global, args: ArgSpec) -> Result<Value, AllocError>
    ensures { IfOk result (λ value. value
        ≡ list_of (Str (object_spec_text args.dobj) ∷ Str (prep_text args.prep) ∷ Str (object_spec_text args.iobj) ∷ [])) }
{
    let dobj = text(alloc, print_object_spec(args.dobj))?;
    let prep = text(alloc, print_prep(args.prep))?;
    let iobj = text(alloc, print_object_spec(args.iobj))?;
    let values = vec![in alloc; Value::Str(dobj), Value::Str(prep), Value::Str(iobj)]?;
    Ok(list_of(values))
}

/// `verb_args(x, desc)`: answers `{dobj, prep, iobj}` of a verb, the preposition as its whole set with slashes.
/// E_INVARG if x isn't an object; E_VERBNF if no verb of x itself is meant; E_PERM if the programmer may not read the verb.
/// LambdaMOO Programmer's Manual, 'Operations on Verbs'.
pub fn verb_args<R: Rows>(
    rows: &R,
    alloc: Global,
    programmer: ObjNo,
    x: ObjNo,
    desc: &Desc,
) -> Result<Value, Fault>
    // The rows are good: sound rows of a well formed world, and petitions as they may be beside it.
    requires { IsGood (R.held rows.now).maps }
    // The answer, or the error, is that of the definition `verb_args`.
    ensures comes { Answers (verb_args (world_in (R.held rows.now)) programmer x desc.now) (R.held rows.now) result }
{
    let verb = readable_verb(rows, programmer, x, desc)?;
    let answer = args_answer(alloc, verb.args)?;
    Ok(answer)
}
