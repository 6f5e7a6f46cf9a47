//! Looking up values that a call is given.

use moo_value::{MooStr, ObjNo, Value, ValueList};
use moo_world::{BuiltIn, Call, CallName};

/// Where a value is among the values that a call is given. Places are counted from 0.
#[derive(Clone, Copy)]
pub(crate) enum Position {
    /// A value of the call.
    Value(usize),
    /// An item of a list that is a value of the call.
    Item(usize, usize),
}

/// The first value of a call.
pub(crate) const FIRST: Position = Position::Value(0);

/// The second value of a call.
pub(crate) const SECOND: Position = Position::Value(1);

/// The third value of a call.
pub(crate) const THIRD: Position = Position::Value(2);

/// The new name that `set_property_info` may be given.
pub(crate) const NEW_NAME: Position = Position::Item(2, 2);

/// A call by its name and its values, and its programmer.
#[derive(Clone, Copy)]
pub(crate) struct Given<'a> {
    pub(crate) programmer: ObjNo,
    pub(crate) name: CallName,
    pub(crate) values: &'a [Value],
}

/// A call of a batch, as given by its programmer.
pub(crate) fn given_by<'a>(programmer: ObjNo, call: &'a Call) -> Given<'a> {
    Given {
        programmer,
        name: call.name,
        values: call.args.items(),
    }
}

/// The value of a call at a position; `None` if it has none there.
pub(crate) fn value_at<'a>(given: Given<'a>, position: Position) -> Option<&'a Value> {
    match position {
        Position::Value(place) => given.values.get(place),
        Position::Item(place, inside) => match given.values.get(place) {
            Some(Value::List(list)) => list.items().get(inside),
            _ => None,
        },
    }
}

/// The object of a call at a position; `None` if it has no object there.
pub(crate) fn object_at(given: Given<'_>, position: Position) -> Option<ObjNo> {
    match value_at(given, position) {
        Some(Value::Obj(object)) => Some(*object),
        _ => None,
    }
}

/// Whether an object is the first value of a call.
pub(crate) fn is_first_value(given: Given<'_>, object: ObjNo) -> bool {
    object_at(given, FIRST) == Some(object)
}

/// The text of a call at a position; `None` if it has no text there.
pub(crate) fn text_at<'a>(given: Given<'a>, position: Position) -> Option<&'a MooStr> {
    match value_at(given, position) {
        Some(Value::Str(text)) => Some(text),
        _ => None,
    }
}

/// The built-in property that the second value of a call names; `None` if it names none.
pub(crate) fn second_built_in(given: Given<'_>) -> Option<BuiltIn> {
    BuiltIn::of_name(text_at(given, SECOND)?)
}

/// The list of a call at a position; `None` if it has no list there.
pub(crate) fn list_at<'a>(given: Given<'a>, position: Position) -> Option<&'a ValueList> {
    match value_at(given, position) {
        Some(Value::List(list)) => Some(list),
        _ => None,
    }
}
