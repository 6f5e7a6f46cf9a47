//! What petitions may hold.

ghost use Rattle.std.specs.{Prelude.{◌≡◌}, List.{list_all}};
ghost use Rattle.moo_world.specs.Petitions.{are_few, are_shallow, is_named};

use moo_value::{MAX_NESTING, Value, ValueList};

/// The most calls that a petition holds.
pub const MOST_HELD: usize = 64;

/// How deep lists may nest in each of its calls: with the list of the calls itself that makes 30.
pub const MOST_NESTING: u32 = MAX_NESTING - 3;

/// Whether the value is a list that begins with a string, which is to be the name of a call.
fn is_named(held: &Value) -> bool
    ensures { result ≡ is_named held.now }
{
    match held {
        Value::List(values) => matches!(values.items(), [Value::Str(_), ..]),
        _ => false,
    }
}

/// Whether each of these values is a list that begins with a string, as the calls of a petition are.
pub fn are_named(helds: &[Value]) -> bool
    ensures { result ≡ list_all is_named helds.now }
{
    helds.iter().all(is_named)
}

/// Whether there are as many calls as a petition may hold: 1 to 64.
pub fn are_few(calls: &ValueList) -> bool
    ensures { result ≡ are_few calls.now }
{
    let count = calls.items().len();
    0 < count && count <= MOST_HELD
}

/// Whether lists nest at most 30 deep in the list of a petition's calls, which counts as the first level.
pub fn are_shallow(calls: &ValueList) -> bool
    ensures { result ≡ are_shallow calls.now }
{
    calls.nests_within(MOST_NESTING)
}
