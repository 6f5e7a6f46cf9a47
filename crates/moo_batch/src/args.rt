//! What the calls of petitions are given. A wrong number of arguments is E_ARGS, and a wrong type E_TYPE.

ghost use Rattle.std.specs.Prelude.{◌≡◌, IfOk, IfErr, Ok, Err};
ghost use Rattle.moo_world.specs.Requests.{one_integer, one_list};

use moo_value::{Code, Value, ValueList};

/// The integer that a call takes as its one argument. E_ARGS unless there is one argument; E_TYPE if it isn't an integer.
pub(crate) fn one_integer(args: &[Value]) -> Result<i64, Code>
    ensures { result ≡ one_integer args.now }
{
    match args {
        [Value::Int(n)] => Ok(*n),
        [_] => Err(Code::Type),
        _ => Err(Code::Arguments),
    }
}

/// The list that a call takes as its one argument. E_ARGS unless there is one argument; E_TYPE if it isn't a list.
pub(crate) fn one_list(args: &[Value]) -> Result<&ValueList, Code>
    ensures ok { IfOk result (λ list. one_list args.now ≡ Ok list.now) }
    ensures err { IfErr result (λ code. one_list args.now ≡ Err code) }
{
    match args {
        [Value::List(list)] => Ok(list),
        [_] => Err(Code::Type),
        _ => Err(Code::Arguments),
    }
}
