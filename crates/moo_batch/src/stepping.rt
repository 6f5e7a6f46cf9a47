//! Making any call of a batch.

ghost use Rattle.std.specs.{Prelude.{◌≡◌, true, false, OnOk, IfErr}, List.{list_all}};
ghost use Rattle.moo_world.specs.{Arguments.{fits}, Between.{CallKeepsNumbers}, Names.{grants, is_grant}};
ghost use Rattle.moo_world.specs.{Requests.{petition_call_by, batch_call}, Rows.{IsGood}, World.{is_object}};
ghost use Rattle.moo_calls_shared.specs.Outcomes.{world_in};
ghost use Rattle.moo_batch.specs.Outcomes.{state_in, KeepsGoodRows, Reaches, Stays, StaysAtCheck};

use crate::asking::petition;
use crate::declining::decline;
use crate::granting::grant;
use crate::listing::petitions;
use moo_calls_shared::{Fault, Reason};
use moo_rows::Rows;
use moo_tree::valid;
use moo_value::{ObjNo, Value};
use moo_world::{Call, PetitionCall};
use std::alloc::Global;

/// Makes a call on petitions, for a programmer who is an object. E_ARGS and E_TYPE if it doesn't take the arguments, then its errors.
fn petition_call<R: Rows>(
    rows: &mut R,
    alloc: Global,
    programmer: ObjNo,
    call: PetitionCall,
    args: &[Value],
) -> Result<Value, Fault>
    // The rows are good: sound rows of a well formed world, and petitions as they may be beside it.
    requires good { IsGood (R.held rows.old).maps }
    // The programmer is an object.
    requires there { is_object (world_in (R.held rows.old)) programmer ≡ true }
    // Each argument nests at most 32 deep, and its numbers and texts are within their limits.
    requires fit { list_all fits args.now ≡ true }
    // The answer and the rows, or the error, are those of the call in the model; or memory ran out.
    ensures reaches { Reaches (petition_call_by (state_in (R.held rows.old)) programmer call args.now) (R.held rows.new) result }
    // If a call but `grant` isn't done, the rows are as they were, unless memory ran out.
    ensures stays { grants call ≡ false → Stays (R.held rows.old) (R.held rows.new) result }
    // If a check of the call itself fails, the rows are as they were, with `grant` too.
    ensures check { IfErr result (StaysAtCheck (R.held rows.old) (R.held rows.new)) }
    // If it is done, the rows are good ones, no batch is counted yet, and what stays keeps its number.
    ensures kept { OnOk result (KeepsGoodRows (CallKeepsNumbers (grants call) programmer args.now) (R.held rows.old) (R.held rows.new)) }
{
    match call {
        PetitionCall::Petition => petition(rows, programmer, args),
        PetitionCall::Petitions => petitions(rows, alloc, programmer, args),
        PetitionCall::Grant => grant(rows, alloc, programmer, args),
        PetitionCall::Decline => decline(rows, programmer, args),
    }
}

/// Makes one call for the programmer, on the world or on petitions. E_PERM if the programmer isn't an object; then E_ARGS and E_TYPE; then
/// the errors of the call. At an error, and if a number is wanted and none is left (Full), the rows are as they were. Out of memory they
/// may be half changed, as they may after a `grant` that isn't done, and the caller drops them.
#[tactic(auto, unfolding(moo_world::specs::Requests::batch_call))]
pub fn step<R: Rows>(
    rows: &mut R,
    alloc: Global,
    programmer: ObjNo,
    call: &Call,
) -> Result<Value, Fault>
    // The rows are good: sound rows of a well formed world, and petitions as they may be beside it.
    requires good { IsGood (R.held rows.old).maps }
    // The answer and the rows, or the error, are those of the call in the model; or memory ran out.
    ensures reaches { Reaches (batch_call (state_in (R.held rows.old)) programmer call.now) (R.held rows.new) result }
    // If a call but `grant` isn't done, the rows are as they were, unless memory ran out.
    ensures stays { is_grant call.now.name ≡ false → Stays (R.held rows.old) (R.held rows.new) result }
    // If a check of the call itself fails, the rows are as they were, with `grant` too.
    ensures check { IfErr result (StaysAtCheck (R.held rows.old) (R.held rows.new)) }
    // If it is done, the rows are good ones, no batch is counted yet, and what stays keeps its number.
    ensures kept { OnOk result (KeepsGoodRows (CallKeepsNumbers (is_grant call.now.name) programmer call.now.args) (R.held rows.old)
        (R.held rows.new)) }
{
    let Some(of_petitions) = call.name.petition_call() else {
        return moo_calls::step(rows, alloc, programmer, call);
    };
    if !valid(rows, programmer) {
        return Err(Fault::Moo(Reason::NoProgrammer));
    }
    petition_call(rows, alloc, programmer, of_petitions, call.args.items())
}
