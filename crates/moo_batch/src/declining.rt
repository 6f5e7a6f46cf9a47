//! The call `decline`, which takes a petition away.

ghost use Rattle.std.specs.Prelude.{◌≡◌, ◌||◌, OnOk};
ghost use Rattle.moo_world.specs.{Numbers.{KeepsNumbers}, Objects.{same_object}, Outcomes.{given}, Requests.{decline, one_integer}};
ghost use Rattle.moo_world.specs.{Rights.{is_wizard}, Rows.{IsGood}};
ghost use Rattle.moo_calls_shared.specs.Outcomes.{world_in};
ghost use Rattle.moo_batch.specs.Outcomes.{state_in, KeepsGoodRows, Reaches, Stays};

use crate::args::one_integer;
use crate::looking::petition_at;
use moo_calls_shared::rights::is_wizard;
use moo_calls_shared::{Fault, Reason};
use moo_rows::Rows;
use moo_value::{ObjNo, Value};
use moo_world::ZERO;

/// Whether the programmer may take away a petition that `who` made: its own, or any if the programmer is a wizard.
fn may_decline<R: Rows>(rows: &R, programmer: ObjNo, who: ObjNo) -> bool
    ensures { result ≡ (same_object who programmer || is_wizard (world_in (R.held rows.now)) programmer) }
{
    who == programmer || is_wizard(rows, programmer)
}

/// `decline(number)`: takes a petition away, and answers 0. E_ARGS and E_TYPE unless it is given one integer; then E_INVARG if no petition
/// has this number; then E_PERM if the programmer neither made the petition nor is a wizard. LambdaMOO has no such call.
pub(crate) fn decline<R: Rows>(
    rows: &mut R,
    programmer: ObjNo,
    args: &[Value],
) -> Result<Value, Fault>
    // The rows are good: sound rows of a well formed world, and petitions as they may be beside it.
    requires good { IsGood (R.held rows.old).maps }
    // The answer and the rows, or the error, are those of `decline` in the model; or memory ran out.
    ensures reaches { Reaches (given (one_integer args.now) (decline (state_in (R.held rows.old)) programmer)) (R.held rows.new) result }
    // If it isn't done, the rows are as they were, unless memory ran out.
    ensures stays { Stays (R.held rows.old) (R.held rows.new) result }
    // If it is done, the rows are good ones, no batch is counted yet, and what stays keeps its number.
    ensures kept { OnOk result (KeepsGoodRows KeepsNumbers (R.held rows.old) (R.held rows.new)) }
{
    let number = one_integer(args)?;
    let Some((id, row)) = petition_at(rows, number) else {
        return Err(Fault::Moo(Reason::NoPetition));
    };
    if !may_decline(rows, programmer, row.who) {
        return Err(Fault::Moo(Reason::NotAsker));
    }
    rows.remove_petition(id)?;
    Ok(ZERO)
}
