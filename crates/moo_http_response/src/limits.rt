//! The limits that the types of a value keep.

ghost use Rattle.moo_value.specs.{Text.{IsText}, Literal.{HoldIn, HoldInside, InRange}};

use moo_value::{ObjNo, Value, ValueList};

/// Reads the numbers and strings of a value, since the limits that their types keep are known only of what was read. The call does
/// nothing else; its contract is what it is for.
#[cycle(limits)]
pub(crate) fn read_limits(value: &Value)
    // Each number in the value is in its range, and each string is a text.
    ensures { HoldIn InRange IsText value.now }
{
    match value {
        Value::Int(number) => {
            let _number = *number;
        }
        Value::Obj(ObjNo(number)) => {
            let _number = *number;
        }
        Value::Str(text) => {
            let _bytes = text.bytes();
        }
        Value::Error(_) => {}
        Value::List(list) => read_limits_in(list),
    }
}

/// Reads the numbers and strings of the values in a list.
#[cycle(limits)]
fn read_limits_in(list: &ValueList)
    ensures { HoldInside InRange IsText list.now }
{
    for value in list.items() {
        read_limits(value);
    }
}
