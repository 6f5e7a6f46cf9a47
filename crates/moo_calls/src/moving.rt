//! Moving objects from place to place.

ghost use Rattle.moo_world.specs.{Calls.{move, named_call}, declared.name.CallName.TheVariants.{Move}, Rows.{IsGood}};
ghost use Rattle.moo_calls_shared.specs.Outcomes.{world_in, Does};

use moo_calls_shared::{Fault, Reason, accepts, change_row, rights, two_objects};
use moo_rows::Rows;
use moo_tree::{inside, valid};
use moo_value::{ObjNo, Value};
use moo_world::{Change, ZERO};
use std::alloc::Global;

/// `move(object, destination)`: puts an object into another one, or nowhere if the destination is `#-1`, and answers 0.
/// E_INVARG if there is no such object, and then if the destination is neither an object nor `#-1`; E_PERM if the
/// programmer neither owns the object nor is a wizard; E_NACC if the destination doesn't accept it and the programmer
/// isn't a wizard; E_RECMOVE if the destination is the object itself or is in it, at any depth.
///
/// LambdaMOO Programmer's Manual, 'Object Movement'.
pub fn move_into<R: Rows>(
    rows: &mut R,
    alloc: Global,
    programmer: ObjNo,
    x: ObjNo,
    destination: ObjNo,
) -> Result<Value, Fault>
    // The rows are good: sound rows of a well formed world, and petitions as they may be beside it.
    requires { IsGood (R.held rows.old).maps }
    // It does what the definition `move` says. If it is done, the rows are good, petitions and the count of batches stay, and what stays
    // keeps its number (`Does`). At its errors nothing changes; out of memory the rows may be half changed.
    ensures { Does (move (world_in (R.held rows.old)) programmer x destination) (R.held rows.old) (R.held rows.new) result }
{
    if !valid(rows, x) {
        return Err(Fault::Moo(Reason::NoObject(x)));
    }
    if !rights::valid_or_nothing(rows, destination) {
        return Err(Fault::Moo(Reason::NoPlace(destination)));
    }
    if !rights::controls(rows, programmer, x) {
        return Err(Fault::Moo(Reason::NotControlled(x)));
    }
    if !rights::is_wizard(rows, programmer) && !accepts(alloc, rows, destination, x) {
        return Err(Fault::Moo(Reason::NotAccepted(destination)));
    }
    if inside(rows, destination, x) {
        return Err(Fault::Moo(Reason::PlaceInside(destination)));
    }
    change_row(rows, alloc, x, Change::Location(destination))?;
    Ok(ZERO)
}

/// Makes the call `move` with an object and its destination. E_ARGS and E_TYPE for others, then the errors of the call.
pub(crate) fn move_given<R: Rows>(
    rows: &mut R,
    alloc: Global,
    programmer: ObjNo,
    args: &[Value],
) -> Result<Value, Fault>
    // The rows are good: sound rows of a well formed world, and petitions as they may be beside it.
    requires { IsGood (R.held rows.old).maps }
    // It does what `named_call` says of `Move`. If it is done, the rows are good, petitions and the count of batches stay, and what stays
    // keeps its number (`Does`). At its errors nothing changes; out of memory the rows may be half changed.
    ensures { Does (named_call (world_in (R.held rows.old)) programmer Move args.now) (R.held rows.old) (R.held rows.new) result }
{
    let (x, destination) = two_objects(args)?;
    move_into(rows, alloc, programmer, x, destination)
}
