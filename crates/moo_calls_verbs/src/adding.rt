//! Adding verbs.

ghost use Rattle.std.specs.Prelude.{◌≡◌, true, nat_lt, Some, Err, OnOk, IfOk, IfErr};
ghost use Rattle.moo_rows.specs.{Bits.{verb_bits_of}, declared.row.VerbBits.{VerbBits}};
ghost use Rattle.moo_world.specs.{Rows.{IsGood}, World.{World, is_object, has_word}, Answers.{zero}, Directories.{verb_added}};
ghost use Rattle.moo_world.specs.{Outcomes.{Outcome, Done, fails}, VerbReading.{args_of}, VerbCalls.{add_verb}};
ghost use Rattle.moo_calls_shared.specs.{Outcomes.{world_in, Answers, Does}, Shown.{info_shown, args_shown}};
ghost use Rattle.moo_calls_verbs.specs.Checks.{taking_verb_info};

use moo_calls_shared::{ArgTexts, Fault, Reason, VerbInfo, rights};
use moo_rows::{ArgSpec, Rows, VerbBits, VerbRow};
use moo_tree::valid;
use moo_value::{MooStr, ObjNo, Value};
use moo_verbs::{check_names, read_args};
use moo_world::ZERO;
use std::alloc::Global;

/// Whether the names of a verb have a word: they are neither empty nor all spaces.
fn has_word(names: &MooStr) -> bool
    ensures { result ≡ has_word names.now }
{
    check_names(names).is_ok()
}

/// The rights that a verb takes with an owner and names, or E_INVARG: if the owner isn't an object, then if the rights have
/// a letter other than `r`, `w`, `x` and `d`, then if the names are empty or all spaces.
pub(crate) fn bits_taken<R: Rows>(rows: &R, verb: VerbInfo<'_>) -> Result<VerbBits, Reason>
    // If there is no error, the owner is an object, the rights are those of the letters, and the names have a word.
    ensures owner { OnOk result (is_object (world_in (R.held rows.now)) verb.entry.info.owner ≡ true) }
    ensures bits { IfOk result (λ bits. verb_bits_of verb.entry.info.perms.now ≡ Some bits) }
    ensures names { OnOk result (has_word verb.entry.names.now ≡ true) }
    // At an error, each call that takes this owner, these letters and these names fails for the reason.
    ensures err { IfErr result (λ reason. (then : VerbBits → Outcome World) →
        taking_verb_info (world_in (R.held rows.now))
        (info_shown verb.entry.info) verb.entry.names.now then ≡ fails reason) }
{
    if !valid(rows, verb.info.owner) {
        return Err(Reason::NoObject(verb.info.owner));
    }
    let Some(bits) = VerbBits::read(verb.info.perms) else {
        return Err(Reason::VerbPerms);
    };
    if !has_word(verb.names) {
        return Err(Reason::VerbNames);
    }
    Ok(bits)
}

/// The argument specifiers that three texts name; `None` if a text names none.
pub(crate) fn args_named(args: ArgTexts<'_>) -> Option<ArgSpec>
    ensures { result ≡ args_of args.entry.dobj.now args.entry.prep.now args.entry.iobj.now }
{
    read_args(args.dobj, args.prep, args.iobj).ok()
}

/// The rights and the arguments of the verb that the programmer may add to x, or the first error of `add_verb`.
fn verb_taken<R: Rows>(
    rows: &R,
    programmer: ObjNo,
    x: ObjNo,
    verb: VerbInfo<'_>,
    args: ArgTexts<'_>,
) -> Result<(VerbBits, ArgSpec), Fault>
    // With these rights and arguments, `add_verb` answers 0 and puts the verb last on x.
    ensures ok { IfOk result (λ taken.
        add_verb (world_in (R.held rows.now)) programmer x (info_shown verb.entry.info) verb.entry.names.now (args_shown args.entry)
        ≡ Done zero (verb_added (world_in (R.held rows.now)) x (record {
          names = verb.entry.names.now;
          owner = verb.entry.info.owner;
          bits = taken.0;
          args = taken.1;
        }))) }
    // At an error, `add_verb` ends with it.
    ensures err { IfErr result (λ fault. Answers
        (add_verb (world_in (R.held rows.now)) programmer x (info_shown verb.entry.info) verb.entry.names.now (args_shown args.entry))
        (R.held rows.now) (Err fault)) }
    // If there is no error, x is an object, the names have a word, and a number is left for the verb.
    ensures there { OnOk result (is_object (world_in (R.held rows.now)) x ≡ true) }
    ensures names { OnOk result (has_word verb.entry.names.now ≡ true) }
    ensures left { OnOk result (nat_lt (world_in (R.held rows.now)).next_verb 4294967295 ≡ true) }
{
    if !valid(rows, x) {
        return Err(Fault::Moo(Reason::NoObject(x)));
    }
    let bits = bits_taken(rows, verb)?;
    let Some(args) = args_named(args) else {
        return Err(Fault::Moo(Reason::VerbArgs));
    };
    if !rights::may_write_object(rows, programmer, x) {
        return Err(Fault::Moo(Reason::NoObjectW(x)));
    }
    if !rights::may_make_owner(rows, programmer, verb.info.owner) {
        return Err(Fault::Moo(Reason::NoOwner(verb.info.owner)));
    }
    if rows.head().next_verb == u32::MAX {
        return Err(Fault::Full);
    }
    Ok((bits, args))
}

/// `add_verb(x, {owner, perms, names}, {dobj, prep, iobj})`: puts a verb last in the directory of an object and answers 0.
/// E_INVARG if x or the owner isn't an object, if the rights have a letter other than `r`, `w`, `x` and `d`, if the
/// names are empty or all spaces, and if a verb may not have the arguments; then E_PERM if the programmer may
/// not write x, and if the programmer is neither the owner nor a wizard. Full if every number of a verb has been given.
/// LambdaMOO Programmer's Manual, 'Operations on Verbs'.
pub fn add_verb<R: Rows>(
    rows: &mut R,
    alloc: Global,
    programmer: ObjNo,
    x: ObjNo,
    verb: VerbInfo<'_>,
    args: ArgTexts<'_>,
) -> Result<Value, Fault>
    // The rows are good: sound rows of a well formed world, and petitions as they may be beside it.
    requires { IsGood (R.held rows.old).maps }
    // It does what the definition `add_verb` says. If it is done, the rows are good, petitions and the count of batches stay, and what
    // stays keeps its number (`Does`). At its errors nothing changes; out of memory the rows may be half changed.
    ensures { Does
        (add_verb (world_in (R.held rows.old)) programmer x (info_shown verb.entry.info) verb.entry.names.now (args_shown args.entry))
        (R.held rows.old) (R.held rows.new) result }
{
    let (bits, args) = verb_taken(rows, programmer, x, verb, args)?;
    let row = VerbRow {
        names: verb.names.copy(alloc)?,
        owner: verb.info.owner,
        bits,
        args,
    };
    moo_verbs::add(rows, x, row)?;
    Ok(ZERO)
}
