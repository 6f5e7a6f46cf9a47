//! The JSON of answers, printed.

ghost use Rattle.std.specs.Prelude.{◌≡◌, None, map, IfOk, option_map, string_bytes, codes, false};
ghost use Rattle.serde_json.specs.Data.{object, string, unsigned, number as a_number, member, no_members};
ghost use Rattle.serde_json.specs.{View.{items_view, members_view}, Written.{compact_text, members_have_float}};
ghost use Rattle.moo_value.specs.Literal.{print};
ghost use Rattle.moo_http_response.specs.Bodies.{strings, error_body, call_body, stale_body, accepted_body};

use crate::limits::read_limits;
use moo_value::{Value as Literal, print_literal};
use serde_json::{Map, Value, put};
use std::alloc::{AllocError, Global};

/// An object of JSON as text, without spaces. It has no floats. AllocError if memory runs out.
pub(crate) fn print_object(alloc: Global, fields: Map<String, Value>) -> Result<String, AllocError>
    requires { members_have_float (members_view fields.entries) ≡ false }
    ensures { IfOk result (λ text. string_bytes text ≡ compact_text (object (members_view fields.entries))) }
{
    Value::Object(fields).to_string(alloc)
}

/// The fields of an object of JSON that has a word under `error` alone. AllocError if memory runs out.
pub(crate) fn error_fields(alloc: Global, word: &str) -> Result<Map<String, Value>, AllocError>
    ensures { IfOk result (λ fields. members_view fields.entries ≡ member (codes "error") (string word.now) no_members) }
{
    let word = String::from_str(alloc, word)?;
    let mut fields = Map::new(alloc);
    put(&mut fields, alloc, "error", Value::String(word))?;
    Ok(fields)
}

/// The body with a word under `error` alone. AllocError if memory runs out.
pub(crate) fn error_text(alloc: Global, word: &str) -> Result<String, AllocError>
    ensures { IfOk result (λ text. string_bytes text ≡ compact_text (error_body None word.now)) }
{
    let fields = error_fields(alloc, word)?;
    print_object(alloc, fields)
}

/// The body that tells of one call: its number under `call`, and what befell it under `error`. AllocError if memory runs out.
pub(crate) fn call_text(alloc: Global, call: u32, word: &str) -> Result<String, AllocError>
    ensures { IfOk result (λ text. string_bytes text ≡ compact_text (call_body None call word.now)) }
{
    let mut fields = error_fields(alloc, word)?;
    put(&mut fields, alloc, "call", Value::from(u64::from(call)))?;
    print_object(alloc, fields)
}

/// The body with a word under `error`, and a sentence that says why under `why`, if that is told. AllocError if memory runs out.
pub(crate) fn error_text_with_why(
    alloc: Global,
    word: &str,
    why: Option<&str>,
) -> Result<String, AllocError>
    ensures { IfOk result (λ text. string_bytes text ≡ compact_text (error_body (option_map (λ w. w.now) why.entry) word.now)) }
{
    let Some(why) = why else {
        return error_text(alloc, word);
    };
    let why = String::from_str(alloc, why)?;
    let mut fields = error_fields(alloc, word)?;
    put(&mut fields, alloc, "why", Value::String(why))?;
    print_object(alloc, fields)
}

/// The body that tells of one call: its number under `call`, what befell it under `error`, and why under `why`, if that is told. AllocError
/// if memory runs out.
pub(crate) fn call_text_with_why(
    alloc: Global,
    call: u32,
    word: &str,
    why: Option<&str>,
) -> Result<String, AllocError>
    ensures { IfOk result (λ text. string_bytes text ≡ compact_text (call_body (option_map (λ w. w.now) why.entry) call word.now)) }
{
    let Some(why) = why else {
        return call_text(alloc, call, word);
    };
    let why = String::from_str(alloc, why)?;
    let mut fields = error_fields(alloc, word)?;
    put(&mut fields, alloc, "call", Value::from(u64::from(call)))?;
    put(&mut fields, alloc, "why", Value::String(why))?;
    print_object(alloc, fields)
}

/// The body for a batch that named another number of accepted batches: the present one under `seq`. AllocError if memory runs out.
pub(crate) fn stale_text(alloc: Global, seq: u64) -> Result<String, AllocError>
    ensures { IfOk result (λ text. string_bytes text ≡ compact_text (stale_body seq)) }
{
    let mut fields = error_fields(alloc, "stale")?;
    put(&mut fields, alloc, "seq", Value::from(seq))?;
    print_object(alloc, fields)
}

/// The body with a number under this key alone. AllocError if memory runs out.
pub(crate) fn number_text(alloc: Global, key: &str, number: u64) -> Result<String, AllocError>
    ensures { IfOk result (λ text.
        string_bytes text ≡ compact_text (object (member key.now (a_number (unsigned number)) no_members))) }
{
    let mut fields = Map::new(alloc);
    put(&mut fields, alloc, key, Value::from(number))?;
    print_object(alloc, fields)
}

/// The literal that prints a value, as in `"a"` or `#3`. AllocError if memory runs out.
pub(crate) fn literal_text(alloc: Global, value: &Literal) -> Result<String, AllocError>
    ensures { IfOk result (λ text. string_bytes text ≡ print value.now) }
{
    let mut bytes = Vec::new(alloc);
    print_literal(alloc, value, &mut bytes)?;
    read_limits(value);
    Ok(String::from_utf8(bytes).unwrap())
}

/// The entries of an array of JSON: each answer as the text of its literal. AllocError if memory runs out.
fn literal_entries(alloc: Global, answers: &[Literal]) -> Result<Vec<Value>, AllocError>
    ensures { IfOk result (λ list. items_view list.items ≡ strings (map print answers.now)) }
{
    let mut list = Vec::with_capacity(alloc, answers.len())?;
    for answer in answers {
        list.push(Value::String(literal_text(alloc, answer)?))?;
    }
    Ok(list)
}

/// The body that tells of an accepted batch: each answer as the text of its literal under `answers`, and the number of accepted batches
/// under `seq`. AllocError if memory runs out.
pub(crate) fn accepted_text(
    alloc: Global,
    answers: &[Literal],
    seq: u64,
) -> Result<String, AllocError>
    ensures { IfOk result (λ text. string_bytes text ≡ compact_text (accepted_body answers.now seq)) }
{
    let list = literal_entries(alloc, answers)?;
    let mut fields = Map::new(alloc);
    put(&mut fields, alloc, "answers", Value::Array(list))?;
    put(&mut fields, alloc, "seq", Value::from(seq))?;
    print_object(alloc, fields)
}
