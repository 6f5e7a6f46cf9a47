//! The calls on verbs, each made with a list of arguments. E_ARGS is for another number of arguments, and then E_TYPE for one of another
//! type. Each has a function of its own, since a proof grows with what a function holds where it may end early.

ghost use Rattle.moo_calls_shared.specs.Outcomes.{world_in, Answers, Does};
ghost use Rattle.moo_world.specs.{Rows.{IsGood}, Calls.{named_call}};
ghost use Rattle.moo_world.specs.declared.name.CallName.TheVariants.{Verbs, VerbInfo, VerbArgs, AddVerb, DeleteVerb, SetVerbInfo};
ghost use Rattle.moo_world.specs.declared.name.CallName.TheVariants.{SetVerbArgs};

use moo_calls_shared::{
    Fault, new_verb, new_verb_args, new_verb_info, object_and_desc, one_object,
};
use moo_rows::Rows;
use moo_value::{ObjNo, Value};
use std::alloc::Global;

/// Makes the call `verbs` with an object. E_ARGS and E_TYPE for others, then the errors of the call.
pub(crate) fn verbs_given<R: Rows>(
    rows: &R,
    alloc: Global,
    programmer: ObjNo,
    args: &[Value],
) -> Result<Value, Fault>
    // The rows are good: sound rows of a well formed world, and petitions as they may be beside it.
    requires { IsGood (R.held rows.now).maps }
    // The answer, or the error, is what `named_call` says of `Verbs`.
    ensures comes { Answers (named_call (world_in (R.held rows.now)) programmer Verbs args.now) (R.held rows.now) result }
{
    moo_calls_verbs::verbs(rows, alloc, programmer, one_object(args)?)
}

/// Makes the call `verb_info` with an object and a descriptor. E_ARGS and E_TYPE for others, then the errors of the call.
pub(crate) fn verb_info_given<R: Rows>(
    rows: &R,
    alloc: Global,
    programmer: ObjNo,
    args: &[Value],
) -> Result<Value, Fault>
    // The rows are good: sound rows of a well formed world, and petitions as they may be beside it.
    requires { IsGood (R.held rows.now).maps }
    // The answer, or the error, is what `named_call` says of `VerbInfo`.
    ensures comes { Answers (named_call (world_in (R.held rows.now)) programmer VerbInfo args.now) (R.held rows.now) result }
{
    let (x, desc) = object_and_desc(alloc, args)?;
    moo_calls_verbs::verb_info(rows, alloc, programmer, x, &desc)
}

/// Makes the call `verb_args` with an object and a descriptor. E_ARGS and E_TYPE for others, then the errors of the call.
pub(crate) fn verb_args_given<R: Rows>(
    rows: &R,
    alloc: Global,
    programmer: ObjNo,
    args: &[Value],
) -> Result<Value, Fault>
    // The rows are good: sound rows of a well formed world, and petitions as they may be beside it.
    requires { IsGood (R.held rows.now).maps }
    // The answer, or the error, is what `named_call` says of `VerbArgs`.
    ensures comes { Answers (named_call (world_in (R.held rows.now)) programmer VerbArgs args.now) (R.held rows.now) result }
{
    let (x, desc) = object_and_desc(alloc, args)?;
    moo_calls_verbs::verb_args(rows, alloc, programmer, x, &desc)
}

/// Makes the call `add_verb` with an object, `{owner, perms, names}` and `{dobj, prep, iobj}`. E_ARGS and E_TYPE for others, then its
/// errors.
pub(crate) fn add_verb_given<R: Rows>(
    rows: &mut R,
    alloc: Global,
    programmer: ObjNo,
    args: &[Value],
) -> Result<Value, Fault>
    // The rows are good: sound rows of a well formed world, and petitions as they may be beside it.
    requires { IsGood (R.held rows.old).maps }
    // It does what `named_call` says of `AddVerb`. If it is done, the rows are good, petitions and the count of batches stay, and what
    // stays keeps its number (`Does`). At its errors nothing changes; out of memory the rows may be half changed.
    ensures { Does (named_call (world_in (R.held rows.old)) programmer AddVerb args.now) (R.held rows.old) (R.held rows.new) result }
{
    let new = new_verb(args)?;
    moo_calls_verbs::add_verb(rows, alloc, programmer, new.object, new.verb, new.args)
}

/// Makes the call `delete_verb` with an object and a descriptor. E_ARGS and E_TYPE for others, then the errors of the call.
pub(crate) fn delete_verb_given<R: Rows>(
    rows: &mut R,
    alloc: Global,
    programmer: ObjNo,
    args: &[Value],
) -> Result<Value, Fault>
    // The rows are good: sound rows of a well formed world, and petitions as they may be beside it.
    requires { IsGood (R.held rows.old).maps }
    // It does what `named_call` says of `DeleteVerb`. If it is done, the rows are good, petitions and the count of batches stay, and what
    // stays keeps its number (`Does`). At its errors nothing changes; out of memory the rows may be half changed.
    ensures { Does (named_call (world_in (R.held rows.old)) programmer DeleteVerb args.now) (R.held rows.old) (R.held rows.new) result }
{
    let (x, desc) = object_and_desc(alloc, args)?;
    moo_calls_verbs::delete_verb(rows, programmer, x, &desc)
}

/// Makes the call `set_verb_info` with an object, a descriptor and `{owner, perms, names}`. E_ARGS and E_TYPE for others, then its errors.
pub(crate) fn set_verb_info_given<R: Rows>(
    rows: &mut R,
    alloc: Global,
    programmer: ObjNo,
    args: &[Value],
) -> Result<Value, Fault>
    // The rows are good: sound rows of a well formed world, and petitions as they may be beside it.
    requires { IsGood (R.held rows.old).maps }
    // It does what `named_call` says of `SetVerbInfo`. If it is done, the rows are good, petitions and the count of batches stay, and what
    // stays keeps its number (`Does`). At its errors nothing changes; out of memory the rows may be half changed.
    ensures { Does (named_call (world_in (R.held rows.old)) programmer SetVerbInfo args.now) (R.held rows.old) (R.held rows.new) result }
{
    let new = new_verb_info(alloc, args)?;
    moo_calls_verbs::set_verb_info(rows, alloc, programmer, new.object, &new.desc, new.verb)
}

/// Makes the call `set_verb_args` with an object, a descriptor and `{dobj, prep, iobj}`. E_ARGS and E_TYPE for others, then its errors.
pub(crate) fn set_verb_args_given<R: Rows>(
    rows: &mut R,
    alloc: Global,
    programmer: ObjNo,
    args: &[Value],
) -> Result<Value, Fault>
    // The rows are good: sound rows of a well formed world, and petitions as they may be beside it.
    requires { IsGood (R.held rows.old).maps }
    // It does what `named_call` says of `SetVerbArgs`. If it is done, the rows are good, petitions and the count of batches stay, and what
    // stays keeps its number (`Does`). At its errors nothing changes; out of memory the rows may be half changed.
    ensures { Does (named_call (world_in (R.held rows.old)) programmer SetVerbArgs args.now) (R.held rows.old) (R.held rows.new) result }
{
    let new = new_verb_args(alloc, args)?;
    moo_calls_verbs::set_verb_args(rows, alloc, programmer, new.object, &new.desc, new.args)
}
