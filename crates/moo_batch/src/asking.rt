//! The call `petition`, which keeps calls for a wizard to grant.

ghost use Rattle.std.specs.{Prelude.{◌≡◌, true, OnOk, IfErr}, List.{list_all}};
ghost use Rattle.moo_value.specs.{Value.{spread}, declared.value.Value.TheVariants.{List as a_list}};
ghost use Rattle.moo_world.specs.{Arguments.{fits}, Numbers.{KeepsNumbers}, Petitions.{is_named, are_few, are_shallow, petition_fits}};
ghost use Rattle.moo_world.specs.{Outcomes.{Outcome, fails, given}, Requests.{State, are_on_world, petition_filed, one_list, petition}};
ghost use Rattle.moo_world.specs.{Rows.{IsGood}, World.{is_object}};
ghost use Rattle.moo_calls_shared.specs.Outcomes.{world_in};
ghost use Rattle.moo_batch.specs.{Checks.{taking_calls}, Outcomes.{state_in, KeepsGoodRows, Reaches, Stays}};

use crate::args::one_list;
use crate::held::are_calls;
use moo_calls_shared::{Fault, Reason};
use moo_rows::{PetitionId, PetitionRow, Rows};
use moo_value::{ObjNo, Value, ValueList};
use moo_world::{are_few, are_named, are_shallow};

/// Tests whether a petition may ask for the calls of a list. E_TYPE if one isn't a list that begins with a string; then E_INVARG if there
/// are none or more than 64, if one isn't a call on the world, or if the lists nest more than 30 deep.
fn may_be_asked(calls: &ValueList) -> Result<(), Reason>
    // The list nests at most 32 deep, and its numbers and texts are within their limits.
    requires { fits (a_list calls.now) ≡ true }
    // If there is no error, each of the calls is a list that begins with a string.
    ensures named { OnOk result (list_all is_named (spread calls.now) ≡ true) }
    // There are 1 to 64 calls, each is a call on the world, and the lists nest at most 30 deep.
    ensures few { OnOk result (are_few calls.now ≡ true) }
    ensures on_world { OnOk result (are_on_world calls.now ≡ true) }
    ensures shallow { OnOk result (are_shallow calls.now ≡ true) }
    // At an error, `petition` of the calls fails for the reason.
    ensures err { IfErr result (λ reason. (then : Outcome State) → taking_calls calls.now then ≡ fails reason) }
{
    if !are_named(calls.items()) {
        return Err(Reason::Unnamed);
    }
    if !are_few(calls) {
        return Err(Reason::NotFew);
    }
    if !are_calls(calls.items()) {
        return Err(Reason::Unasked);
    }
    if !are_shallow(calls) {
        return Err(Reason::Deep);
    }
    Ok(())
}

/// Keeps the calls as a petition of the programmer's, and answers its number. Full if 4,294,967,294 has been given; or OutOfMemory.
fn add_petition<R: Rows>(rows: &mut R, programmer: ObjNo, calls: ValueList) -> Result<Value, Fault>
    // The rows are good: sound rows of a well formed world, and petitions as they may be beside it.
    requires good { IsGood (R.held rows.old).maps }
    // A petition of the programmer's may hold the calls.
    requires fit { petition_fits (record { who = programmer; calls = calls }) ≡ true }
    // There is one petition more, and the answer is its number; or Full; or memory ran out.
    ensures reaches { Reaches (petition_filed (state_in (R.held rows.old)) programmer calls) (R.held rows.new) result }
    // If it isn't done, the rows are as they were, unless memory ran out.
    ensures stays { Stays (R.held rows.old) (R.held rows.new) result }
    // If it is done, the rows are good ones, no batch is counted yet, and what stays keeps its number.
    ensures kept { OnOk result (KeepsGoodRows KeepsNumbers (R.held rows.old) (R.held rows.new)) }
{
    let mut head = rows.head();
    let number = head.next_petition;
    if number == u32::MAX {
        return Err(Fault::Full);
    }
    let row = PetitionRow {
        who: programmer,
        calls,
    };
    rows.put_petition(PetitionId(number), row)?;
    head.next_petition = number + 1;
    rows.set_head(head);
    Ok(Value::Int(i64::from(number)))
}

/// `petition(calls)`: keeps the calls as a petition of the programmer's, and answers its number.
///
/// E_TYPE if it isn't given a list of lists that each begin with a string; then E_INVARG if there are none or more than 64,
/// if such a string names no call or a call on petitions, or if lists nest more than 30 deep. Full if no number is left: the
/// greatest is 4,294,967,294. LambdaMOO has no such call.
pub(crate) fn petition<R: Rows>(
    rows: &mut R,
    programmer: ObjNo,
    args: &[Value],
) -> Result<Value, Fault>
    // The rows are good: sound rows of a well formed world, and petitions as they may be beside it.
    requires good { IsGood (R.held rows.old).maps }
    // The programmer is an object.
    requires there { is_object (world_in (R.held rows.old)) programmer ≡ true }
    // Each argument nests at most 32 deep, and its numbers and texts are within their limits.
    requires fit { list_all fits args.now ≡ true }
    // The answer and the rows, or the error, are those of `petition` in the model; or memory ran out.
    ensures reaches { Reaches (given (one_list args.now) (petition (state_in (R.held rows.old)) programmer)) (R.held rows.new) result }
    // If it isn't done, the rows are as they were, unless memory ran out.
    ensures stays { Stays (R.held rows.old) (R.held rows.new) result }
    // If it is done, the rows are good ones, no batch is counted yet, and what stays keeps its number.
    ensures kept { OnOk result (KeepsGoodRows KeepsNumbers (R.held rows.old) (R.held rows.new)) }
{
    let calls = one_list(args)?;
    may_be_asked(calls)?;
    let calls = calls.clone()?;
    add_petition(rows, programmer, calls)
}
