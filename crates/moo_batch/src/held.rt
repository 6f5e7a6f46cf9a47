//! Calls as petitions hold them: lists that begin with the name of a call.

ghost use Rattle.std.specs.{Prelude.{◌≡◌, ◌∷◌, false, Some, None, is_some, if◌then◌else◌, IfSome, IfNone}, List.{list_all}};
ghost use Rattle.std.specs.Option.{option_and_then};
ghost use Rattle.moo_value.specs.declared.value.Value.TheVariants.{Str};
ghost use Rattle.moo_world.specs.{Names.{call_name_of, petition_call}, Petitions.{begins_with_text}, Requests.{held_call}};

use moo_value::{MooStr, Value};
use moo_world::CallName;

/// The string that values begin with, and the values after it; `None` if they don't begin with a string.
fn first_text(values: &[Value]) -> Option<(&MooStr, &[Value])>
    ensures some { IfSome result (λ split. values.now ≡ Str split.0.now ∷ split.1.now) }
    ensures none { IfNone result (begins_with_text values.now ≡ false) }
{
    match values.first() {
        Some(Value::Str(text)) => Some((text, &values[1..])),
        _ => None,
    }
}

/// The call on the world that a name spells; `None` if it spells no call, or a call on petitions.
fn world_call_name(name: &[u8]) -> Option<CallName>
    ensures { result ≡ option_and_then (λ n. if is_some (petition_call n) then None else Some n) (call_name_of name.now) }
{
    let name = CallName::read(name)?;
    match name.petition_call() {
        None => Some(name),
        Some(_) => None,
    }
}

/// The call that a value in a petition is: its name and its arguments. `None` if the value isn't a list that begins with the name of a call
/// on the world. The arguments may still nest too deep for a call.
pub fn held_call(held: &Value) -> Option<(CallName, &[Value])>
    // The value spells this call: a list of its name and of its arguments.
    ensures some { IfSome result (λ call. held_call held.now ≡ Some (record { name = call.0; args = call.1.now })) }
    // The value spells no call on the world.
    ensures none { IfNone result (held_call held.now ≡ None) }
{
    let values = match held {
        Value::List(values) => values,
        _ => return None,
    };
    let (name, args) = first_text(values.items())?;
    let name = world_call_name(name.bytes())?;
    Some((name, args))
}

/// Whether a value in a petition is a call on the world.
fn is_call(held: &Value) -> bool
    ensures { result ≡ is_some (held_call held.now) }
{
    held_call(held).is_some()
}

/// Whether each value in a petition is a call on the world.
pub(crate) fn are_calls(helds: &[Value]) -> bool
    ensures { result ≡ list_all (λ held. is_some (held_call held)) helds.now }
{
    helds.iter().all(is_call)
}
