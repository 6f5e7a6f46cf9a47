//! Changing and deleting verbs.

ghost use Rattle.std.specs.{Prelude.{◌≡◌, Some, option_map, OnOk}, FinMap.{remove}};
ghost use Rattle.moo_rows.specs.declared.row.VerbId.{VerbId};
ghost use Rattle.moo_world.specs.{Descriptors.{found_verb}, Rows.{IsGood}, VerbCalls.{delete_verb, set_verb_info, set_verb_args}};
ghost use Rattle.moo_calls_shared.specs.{Outcomes.{world_in, Does}, Shown.{info_shown, args_shown}};
ghost use Rattle.moo_verbs.specs.Places.{verb_place};

use crate::adding::{args_named, bits_taken};
use moo_calls_shared::{ArgTexts, Fault, Reason, VerbInfo, rights};
use moo_rows::Rows;
use moo_tree::valid;
use moo_value::{ObjNo, Value};
use moo_verbs::found_verb;
use moo_world::{Desc, ZERO};
use std::alloc::Global;

/// `delete_verb(x, desc)`: takes a verb out of the directory of an object and answers 0. The others keep their numbers, also if two verbs
/// are alike. E_INVARG if x isn't an object; E_PERM if the programmer may not write x; E_VERBNF if no verb of x itself is meant.
/// LambdaMOO Programmer's Manual, 'Operations on Verbs'.
pub fn delete_verb<R: Rows>(
    rows: &mut R,
    programmer: ObjNo,
    x: ObjNo,
    desc: &Desc,
) -> Result<Value, Fault>
    // The rows are good: sound rows of a well formed world, and petitions as they may be beside it.
    requires { IsGood (R.held rows.old).maps }
    // It does what the definition `delete_verb` says. If it is done, the rows are good, petitions and the count of batches stay, and what
    // stays keeps its number (`Does`). At its errors nothing changes; out of memory the rows may be half changed.
    ensures does { Does (delete_verb (world_in (R.held rows.old)) programmer x desc.now) (R.held rows.old) (R.held rows.new) result }
    // If it is done, one row is gone, that of the verb which the descriptor means; all other verbs stay, with their numbers.
    ensures gone { OnOk result
        ((id : VerbId)
        × (option_map (λ f. f.0) (found_verb (world_in (R.held rows.old)) x desc.now) ≡ Some (verb_place (R.held rows.old).maps x id))
        × ((R.held rows.new).maps.verbs ≡ remove (R.held rows.old).maps.verbs (x, id))) }
{
    if !valid(rows, x) {
        return Err(Fault::Moo(Reason::NoObject(x)));
    }
    if !rights::may_write_object(rows, programmer, x) {
        return Err(Fault::Moo(Reason::NoObjectW(x)));
    }
    let Some(verb) = found_verb(rows, x, desc) else {
        return Err(Fault::Moo(Reason::NoVerb(x)));
    };
    let id = verb.id;
    moo_verbs::delete(rows, x, id)?;
    Ok(ZERO)
}

/// `set_verb_info(x, desc, {owner, perms, names})`: changes the owner, the rights and the names of a verb and answers 0.
/// E_INVARG if x isn't an object; E_VERBNF if no verb of x itself is meant; E_INVARG if the owner isn't an object, if
/// the rights have a letter other than `r`, `w`, `x` and `d`, and if the names are empty or all spaces; then E_PERM if
/// the programmer may not write the verb, and if the programmer is neither the new owner nor a wizard.
/// LambdaMOO Programmer's Manual, 'Operations on Verbs'.
pub fn set_verb_info<R: Rows>(
    rows: &mut R,
    alloc: Global,
    programmer: ObjNo,
    x: ObjNo,
    desc: &Desc,
    verb: VerbInfo<'_>,
) -> Result<Value, Fault>
    // The rows are good: sound rows of a well formed world, and petitions as they may be beside it.
    requires { IsGood (R.held rows.old).maps }
    // It does what the definition `set_verb_info` says. If it is done, the rows are good, petitions and the count of batches stay, and what
    // stays keeps its number (`Does`). At its errors nothing changes; out of memory the rows may be half changed.
    ensures { Does (set_verb_info (world_in (R.held rows.old)) programmer x desc.now (info_shown verb.entry.info) verb.entry.names.now)
        (R.held rows.old) (R.held rows.new) result }
{
    if !valid(rows, x) {
        return Err(Fault::Moo(Reason::NoObject(x)));
    }
    let Some(found) = found_verb(rows, x, desc) else {
        return Err(Fault::Moo(Reason::NoVerb(x)));
    };
    let bits = bits_taken(rows, verb)?;
    if !rights::may_write_verb(rows, programmer, found.row) {
        return Err(Fault::Moo(Reason::NoVerbW(x)));
    }
    if !rights::may_make_owner(rows, programmer, verb.info.owner) {
        return Err(Fault::Moo(Reason::NoOwner(verb.info.owner)));
    }
    let names = verb.names.copy(alloc)?;
    let id = found.id;
    moo_verbs::set_info(rows, x, id, verb.info.owner, bits, names)?;
    Ok(ZERO)
}

/// `set_verb_args(x, desc, {dobj, prep, iobj})`: changes the arguments of a verb and answers 0. E_INVARG if x isn't an object; E_VERBNF if
/// no verb of x itself is meant; E_INVARG if a verb may not have the arguments; E_PERM if the programmer may not write the verb.
/// LambdaMOO Programmer's Manual, 'Operations on Verbs'.
pub fn set_verb_args<R: Rows>(
    rows: &mut R,
    alloc: Global,
    programmer: ObjNo,
    x: ObjNo,
    desc: &Desc,
    args: ArgTexts<'_>,
) -> Result<Value, Fault>
    // The rows are good: sound rows of a well formed world, and petitions as they may be beside it.
    requires { IsGood (R.held rows.old).maps }
    // It does what the definition `set_verb_args` says. If it is done, the rows are good, petitions and the count of batches stay, and what
    // stays keeps its number (`Does`). At its errors nothing changes; out of memory the rows may be half changed.
    ensures { Does (set_verb_args (world_in (R.held rows.old)) programmer x desc.now (args_shown args.entry))
        (R.held rows.old) (R.held rows.new) result }
{
    if !valid(rows, x) {
        return Err(Fault::Moo(Reason::NoObject(x)));
    }
    let Some(verb) = found_verb(rows, x, desc) else {
        return Err(Fault::Moo(Reason::NoVerb(x)));
    };
    let Some(args) = args_named(args) else {
        return Err(Fault::Moo(Reason::VerbArgs));
    };
    if !rights::may_write_verb(rows, programmer, verb.row) {
        return Err(Fault::Moo(Reason::NoVerbW(x)));
    }
    let id = verb.id;
    moo_verbs::set_args(alloc, rows, x, id, args)?;
    Ok(ZERO)
}
