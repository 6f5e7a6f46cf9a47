//! The calls `set_player_flag` and `set_accept`, each of which changes one field of an object.

ghost use Rattle.std.specs.{Prelude.{◌≡◌, true, [], length, nat_le, unwrap_or}, List.{list_all}};
ghost use Rattle.moo_world.specs.{Arguments.{fits, is_number}, Calls.{set_accept, set_player_flag, named_call}};
ghost use Rattle.moo_world.specs.{declared.name.CallName.TheVariants.{SetPlayerFlag, SetAccept}, Rows.{IsGood}};
ghost use Rattle.moo_calls_shared.specs.Outcomes.{world_in, Does};

use moo_calls_shared::{Fault, Reason, change_row, object_and_accept, object_and_value, rights};
use moo_rows::{ObjList, Rows};
use moo_tree::valid;
use moo_value::{ObjNo, Value};
use moo_world::{Change, MOST_ACCEPTED, ZERO};
use std::alloc::Global;

/// `set_player_flag(object, value)`: makes a player of an object, or no player, by the truth of the value, and answers 0.
/// E_INVARG if there is no such object; E_PERM if the programmer isn't a wizard.
///
/// LambdaMOO Programmer's Manual, 'Operations on Player Objects'.
pub fn set_player_flag<R: Rows>(
    rows: &mut R,
    alloc: Global,
    programmer: ObjNo,
    x: ObjNo,
    value: &Value,
) -> Result<Value, Fault>
    // The rows are good: sound rows of a well formed world, and petitions as they may be beside it.
    requires { IsGood (R.held rows.old).maps }
    // It does what the definition `set_player_flag` says. If it is done, the rows are good, petitions and the count of batches stay, and
    // what stays keeps its number (`Does`). At its errors nothing changes; out of memory the rows may be half changed.
    ensures { Does (set_player_flag (world_in (R.held rows.old)) programmer x value.now) (R.held rows.old) (R.held rows.new) result }
{
    if !valid(rows, x) {
        return Err(Fault::Moo(Reason::NoObject(x)));
    }
    if !rights::is_wizard(rows, programmer) {
        return Err(Fault::Moo(Reason::NoWizard));
    }
    change_row(rows, alloc, x, Change::Player(value.is_true()))?;
    Ok(ZERO)
}

/// Whether an accept list has 1,000 entries at most. No list is within the limit too.
fn is_short(list: &Option<ObjList>) -> bool
    ensures { result ≡ nat_le (length (unwrap_or list.now [])) MOST_ACCEPTED }
{
    match list {
        Some(list) => list.items().len() <= MOST_ACCEPTED,
        None => true,
    }
}

/// `set_accept(object, list)`: sets the list of what the object takes in, or takes the list away if none is given, and answers 0. E_INVARG
/// if there is no such object; E_PERM if the programmer neither owns it nor is a wizard; E_INVARG if the list has more than 1,000 entries.
///
/// The list stands for the verb `accept` of the LambdaMOO Programmer's Manual, 'Object Movement'.
pub fn set_accept<R: Rows>(
    rows: &mut R,
    alloc: Global,
    programmer: ObjNo,
    x: ObjNo,
    list: Option<ObjList>,
) -> Result<Value, Fault>
    // The rows are good: sound rows of a well formed world, and petitions as they may be beside it.
    requires good { IsGood (R.held rows.old).maps }
    // The objects of the list have numbers of 32 bits.
    requires numbers { list_all is_number (unwrap_or list []) ≡ true }
    // It does what the definition `set_accept` says. If it is done, the rows are good, petitions and the count of batches stay, and what
    // stays keeps its number (`Does`). At its errors nothing changes; out of memory the rows may be half changed.
    ensures { Does (set_accept (world_in (R.held rows.old)) programmer x list) (R.held rows.old) (R.held rows.new) result }
{
    if !valid(rows, x) {
        return Err(Fault::Moo(Reason::NoObject(x)));
    }
    if !rights::controls(rows, programmer, x) {
        return Err(Fault::Moo(Reason::NotControlled(x)));
    }
    if !is_short(&list) {
        return Err(Fault::Moo(Reason::LongList));
    }
    change_row(rows, alloc, x, Change::Accept(list))?;
    Ok(ZERO)
}

/// Makes the call `set_player_flag` with an object and a value. E_ARGS and E_TYPE for others, then the errors of the call.
pub(crate) fn set_player_flag_given<R: Rows>(
    rows: &mut R,
    alloc: Global,
    programmer: ObjNo,
    args: &[Value],
) -> Result<Value, Fault>
    // The rows are good: sound rows of a well formed world, and petitions as they may be beside it.
    requires { IsGood (R.held rows.old).maps }
    // It does what `named_call` says of `SetPlayerFlag`. If it is done, the rows are good, petitions and the count of batches stay, and
    // what stays keeps its number (`Does`). At its errors nothing changes; out of memory the rows may be half changed.
    ensures { Does (named_call (world_in (R.held rows.old)) programmer SetPlayerFlag args.now) (R.held rows.old) (R.held rows.new) result }
{
    let (x, value) = object_and_value(args)?;
    set_player_flag(rows, alloc, programmer, x, value)
}

/// Makes the call `set_accept` with an object, and a list of objects or 0. E_ARGS and E_TYPE for others, then the errors of the call.
pub(crate) fn set_accept_given<R: Rows>(
    rows: &mut R,
    alloc: Global,
    programmer: ObjNo,
    args: &[Value],
) -> Result<Value, Fault>
    // The rows are good: sound rows of a well formed world, and petitions as they may be beside it.
    requires good { IsGood (R.held rows.old).maps }
    // Each argument nests at most 32 deep, and its numbers and texts are within their limits.
    requires fit { list_all fits args.now ≡ true }
    // It does what `named_call` says of `SetAccept`. If it is done, the rows are good, petitions and the count of batches stay, and what
    // stays keeps its number (`Does`). At its errors nothing changes; out of memory the rows may be half changed.
    ensures { Does (named_call (world_in (R.held rows.old)) programmer SetAccept args.now) (R.held rows.old) (R.held rows.new) result }
{
    let (x, list) = object_and_accept(alloc, args)?;
    set_accept(rows, alloc, programmer, x, list)
}
