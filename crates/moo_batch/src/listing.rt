//! The call `petitions`, which lists petitions.

ghost use Rattle.std.specs.{Prelude.{◌≡◌, map, ◌||◌, IfOk, OnOk}, List.{filter}, FinMap.{entries}};
ghost use Rattle.moo_world.specs.{Arguments.{no_values}, Numbers.{KeepsNumbers}, Objects.{same_object}, Outcomes.{given}};
ghost use Rattle.moo_world.specs.{Requests.{listed, petitions}, Rows.{IsGood}};
ghost use Rattle.moo_batch.specs.Outcomes.{state_in, KeepsGoodRows, Reaches};

use moo_calls_shared::rights::is_wizard;
use moo_calls_shared::{Fault, no_values};
use moo_rows::{PetitionId, PetitionRow, Rows, each_petition};
use moo_value::{ObjNo, Value};
use moo_world::list_of;
use std::alloc::{AllocError, Global};

/// A petition as `petitions` lists it: `{number, who, calls}`. The only error is a lack of memory.
fn value_of_petition(alloc: Global, id: PetitionId, row: &PetitionRow) -> Result<Value, AllocError>
    ensures { IfOk result (λ v. v ≡ listed (id, row.now)) }
{
    let number = Value::Int(i64::from(id.0));
    let calls = Value::List(row.calls.clone()?);
    Ok(list_of(vec![in alloc; number, Value::Obj(row.who), calls]?))
}

/// Whether `petitions` lists a petition for the programmer: any if it sees `all`, else its own.
fn is_listed(row: &PetitionRow, all: bool, programmer: ObjNo) -> bool
    ensures { result ≡ (all || same_object row.now.who programmer) }
{
    all || row.who == programmer
}

/// The petitions that the programmer sees, `all` or its own, as `petitions` lists them, ascending. The only error is a lack of memory.
fn values_of_petitions<R: Rows>(
    rows: &R,
    alloc: Global,
    all: bool,
    programmer: ObjNo,
) -> Result<Vec<Value>, AllocError>
    ensures { IfOk result (λ found. found.items ≡ map listed (filter (λ e. all
        || same_object e.1.who programmer) (entries (R.held rows.now).maps.petitions))) }
{
    let mut found = Vec::new(alloc);
    for (id, row) in each_petition(rows) {
        if is_listed(row, all, programmer) {
            found.push(value_of_petition(alloc, id, row)?)?;
        }
    }
    Ok(found)
}

/// `petitions()`: a list of `{number, who, calls}` for each petition, ascending: all of them for a wizard, else the programmer's own.
/// E_ARGS if there are arguments. LambdaMOO has no such call.
pub(crate) fn petitions<R: Rows>(
    rows: &R,
    alloc: Global,
    programmer: ObjNo,
    args: &[Value],
) -> Result<Value, Fault>
    // The rows are good: sound rows of a well formed world, and petitions as they may be beside it.
    requires good { IsGood (R.held rows.now).maps }
    // The answer, or the error, is that of `petitions` in the model; or memory ran out.
    ensures reaches { Reaches (given (no_values args.now) (λ _. petitions (state_in (R.held rows.now)) programmer))
        (R.held rows.now) result }
    // The rows, which stay, are good ones.
    ensures kept { OnOk result (KeepsGoodRows KeepsNumbers (R.held rows.now) (R.held rows.now)) }
{
    no_values(args)?;
    let found = values_of_petitions(rows, alloc, is_wizard(rows, programmer), programmer)?;
    Ok(list_of(found))
}
