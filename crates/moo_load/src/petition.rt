//! Reading the values of a petition's line.

ghost use Rattle.std.specs.{Prelude.{◌≡◌, ◌≢◌, ◌<◌, ℕ, pos, true, ◌&&◌, IfOk, IfErr}, List.{list_all}};
ghost use Rattle.moo_value.specs.{declared.value.Value.TheVariants.{Int, List as a_list}, Value.{spread}, Values.{Values}};
ghost use Rattle.moo_rows.specs.{declared.row.PetitionId.{PetitionId}, declared.row.PetitionRow.{PetitionRow}};
ghost use Rattle.moo_load.specs.Printed.{petition_values};
ghost use Rattle.moo_world.specs.{Arguments.{all_within_limits}, Petitions.{are_few, are_shallow, is_named, petition_fits}};

use crate::fault::{LineFault, LineResult};
use crate::reason::DumpReason;
use crate::value::object_of;
use moo_rows::{PetitionId, PetitionRow};
use moo_value::{Value, ValueList, fits};
use moo_world::{are_few, are_named, are_shallow};
use std::alloc::Global;

/// The number of a petition, 1 to 4,294,967,294: one below the greatest counter. NoPetition for any other value.
fn petition_number(value: &Value) -> LineResult<u32>
    ensures shown { IfOk result (λ number. value.now ≡ Int (pos number)) }
    ensures some { IfOk result (λ number. 0 < number) }
    ensures below { IfOk result (λ number. number < 4294967295) }
    // There is a fault only if the value isn't such a number.
    ensures err { IfErr result (λ _. (number : ℕ) → 0 < number → number < 4294967295 → value.now ≢ Int (pos number)) }
{
    match value {
        Value::Int(n) if 0 < *n && *n < i64::from(u32::MAX) => Ok(*n as u32),
        _ => Err(LineFault::Unreadable(DumpReason::NoPetition)),
    }
}

/// Whether a petition may hold the calls of a list, which are within the limits of values: 1 to 64 lists that begin with a string, and
/// nest at most 30 deep.
fn may_be_held(calls: &ValueList) -> bool
    ensures { result ≡ (list_all is_named (spread calls.now) && (are_few calls.now && are_shallow calls.now)) }
{
    are_named(calls.items()) && are_few(calls) && are_shallow(calls)
}

/// The calls of a petition, from a value of its line. NoCalls if a petition may not hold them; OutOfMemory if memory runs out.
fn calls_of(alloc: Global, value: &Value) -> LineResult<ValueList>
    ensures shown { IfOk result (λ calls. value.now ≡ a_list calls) }
    // There are 1 to 64 lists that begin with a string and nest at most 30 deep, with values within their limits.
    ensures fits { IfOk result (λ calls. (list_all is_named (spread calls)
        && (are_few calls && (are_shallow calls && all_within_limits calls))) ≡ true) }
    // There is a fault, but for out of memory, only if the value isn't a list of such calls.
    ensures err { IfErr result (λ fault. fault ≢ LineFault.OutOfMemory → (calls : Values)
        → (list_all is_named (spread calls) && (are_few calls && (are_shallow calls && all_within_limits calls))) ≡ true →
        value.now ≢ a_list calls) }
{
    if !fits(value) {
        return Err(LineFault::Unreadable(DumpReason::NoCalls));
    }
    match value {
        Value::List(calls) if may_be_held(calls) => {
            let calls = calls.clone()?;
            Ok(calls)
        }
        _ => Err(LineFault::Unreadable(DumpReason::NoCalls)),
    }
}

/// The number and the row of a petition, from the values of its line. The error is the first value, from left to right, that isn't as a
/// dump has it, or their count; or OutOfMemory.
pub(crate) fn read_petition(
    alloc: Global,
    values: &[Value],
) -> LineResult<(PetitionId, PetitionRow)>
    // The values are those of the petition's line.
    ensures shown { IfOk result (λ r. values.now ≡ petition_values r.0 r.1) }
    // A petition may hold the calls, and the number is 1 to 4,294,967,294.
    ensures fits { IfOk result (λ r. petition_fits r.1 ≡ true) }
    ensures some { IfOk result (λ r. 0 < r.0.0) }
    ensures below { IfOk result (λ r. r.0.0 < 4294967295) }
    // There is a fault, but for out of memory, only if the values aren't those of the line of a petition within its limits.
    ensures err { IfErr result (λ fault. fault ≢ LineFault.OutOfMemory → (id : PetitionId) (row : PetitionRow) → 0 < id.0 →
        id.0 < 4294967295 → petition_fits row ≡ true
        → values.now ≢ petition_values id row) }
{
    let [number, who, calls] = values else {
        return Err(LineFault::Unreadable(DumpReason::Count("a petition has 3 values")));
    };
    let number = petition_number(number)?;
    let who = object_of(who, "asker")?;
    let calls = calls_of(alloc, calls)?;
    Ok((PetitionId(number), PetitionRow { who, calls }))
}
