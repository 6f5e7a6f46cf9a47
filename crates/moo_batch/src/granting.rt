//! The call `grant`, which makes the calls of a petition.

ghost use Rattle.std.specs.{Prelude.{◌≡◌, ◌≤◌, true, false, length, OnOk, IfErr}, List.{list_all}};
ghost use Rattle.moo_world.specs.{Arguments.{fits}, Between.{GrantLeads}, Outcomes.{given}};
ghost use Rattle.moo_world.specs.{Requests.{grant, held_step, held_steps, one_integer}, Rows.{IsGood}};
ghost use Rattle.moo_world.specs.declared.petition.TheConstants.{MOST_HELD};
ghost use Rattle.moo_calls_shared.specs.Outcomes.{world_in, Does};
ghost use Rattle.moo_batch.specs.Outcomes.{state_in, ComesInTurn, KeepInTurn, KeepsGoodRows, Reaches, StaysAtCheck, held_at};

use crate::args::one_integer;
use crate::held::held_call;
use crate::looking::petition_at;
use moo_calls::step_named;
use moo_calls_shared::rights::is_wizard;
use moo_calls_shared::{Fault, Reason};
use moo_rows::{Row, Rows};
use moo_value::{ObjNo, Value};
use moo_world::ZERO;
use std::alloc::Global;

/// Makes one call that a petition holds, for the wizard who grants it. E_INVARG if it isn't a call on the world; then its errors.
fn run_petitioned_call<R: Rows>(
    rows: &mut R,
    alloc: Global,
    wizard: ObjNo,
    held: &Value,
) -> Result<Value, Fault>
    // The rows are good: sound rows of a well formed world, and petitions as they may be beside it.
    requires good { IsGood (R.held rows.old).maps }
    // The call nests at most 32 deep, and its numbers and texts are within their limits.
    requires fit { fits held.now ≡ true }
    // The rows haven't said that their ticks are spent.
    requires leave { (R.held rows.old).base.is_spent ≡ false }
    // It does what the definition `held_step` says. If it is done, the rows are good, petitions and the count of batches stay, and what
    // stays keeps its number (`Does`). At its errors nothing changes; out of memory the rows may be half changed.
    ensures { Does (held_step (world_in (R.held rows.old)) wizard held.now) (R.held rows.old) (R.held rows.new) result }
{
    match held_call(held) {
        Some((name, args)) => step_named(rows, alloc, wizard, name, args),
        None => Err(Fault::Moo(Reason::Unasked)),
    }
}

/// Why a grant fails, if the call at this place of its petition, from 0, fails so: for the same reason, with the place.
fn held_at(place: u32, fault: Fault) -> Fault
    ensures { result ≡ held_at place fault }
{
    match fault {
        Fault::Moo(reason) => Fault::Held { place, reason },
        _ => fault,
    }
}

/// Makes the calls that a petition holds, one after another, up to the first that isn't done: the calls before it have changed the rows
/// then. It makes none once the ticks of the rows are spent, and answers OutOfMemory.
fn run_petitioned_calls<R: Rows>(
    rows: &mut R,
    alloc: Global,
    wizard: ObjNo,
    helds: &[Value],
) -> Result<Value, Fault>
    // The rows are good: sound rows of a well formed world, and petitions as they may be beside it.
    requires good { IsGood (R.held rows.old).maps }
    // Each call nests at most 32 deep, and its numbers and texts are within their limits.
    requires fit { list_all fits helds.now ≡ true }
    // There are at most 64 calls.
    requires few { length helds.now ≤ MOST_HELD }
    // The answer is 0, and the rows are those after all the calls; or the first that isn't done fails, which is told with its place from 0,
    // or wants a number and none is left (Full); or memory ran out.
    ensures comes { ComesInTurn (held_steps 0 (world_in (R.held rows.old)) wizard helds.now) (R.held rows.new) result }
    // If all are done, the rows are good ones, petitions and the sequence number are as they were, and what stays keeps its number.
    ensures kept { OnOk result (KeepInTurn wizard helds.now (R.held rows.old) (R.held rows.new)) }
{
    let mut place: u32 = 0;
    for held in helds {
        if !rows.may_call() {
            return Err(Fault::OutOfMemory);
        }
        match run_petitioned_call(rows, alloc, wizard, held) {
            Ok(_done) => {}
            Err(fault) => return Err(held_at(place, fault)),
        }
        place += 1;
    }
    Ok(ZERO)
}

/// `grant(number)`: takes a petition away and makes its calls, one after another, on the wizard's authority. It answers 0.
///
/// E_PERM if the programmer isn't a wizard; then E_INVARG if there is no petition of this number; then the first error or Full of its
/// calls, each of which asks first, as any call does, that the wizard is an object. The rows may then be half changed, and the caller drops
/// them. LambdaMOO has no such call.
pub(crate) fn grant<R: Rows>(
    rows: &mut R,
    alloc: Global,
    programmer: ObjNo,
    args: &[Value],
) -> Result<Value, Fault>
    // The rows are good: sound rows of a well formed world, and petitions as they may be beside it.
    requires good { IsGood (R.held rows.old).maps }
    // The answer and the rows, or the error, are those of `grant` in the model; or memory ran out.
    ensures reaches { Reaches (given (one_integer args.now) (grant (state_in (R.held rows.old)) programmer)) (R.held rows.new) result }
    // If a check of `grant` itself fails, the rows are as they were.
    ensures check { IfErr result (StaysAtCheck (R.held rows.old) (R.held rows.new)) }
    // If it is done, the rows are good ones, no batch is counted yet, and each call of the petition kept numbers.
    ensures kept { OnOk result (KeepsGoodRows (GrantLeads programmer args.now) (R.held rows.old) (R.held rows.new)) }
{
    let number = one_integer(args)?;
    if !is_wizard(rows, programmer) {
        return Err(Fault::Moo(Reason::NoWizard));
    }
    let Some((id, row)) = petition_at(rows, number) else {
        return Err(Fault::Moo(Reason::NoPetition));
    };
    let row = row.copy(alloc)?;
    rows.remove_petition(id)?;
    run_petitioned_calls(rows, alloc, programmer, row.calls.items())
}
