//! The JSON of what calls are answered, each alone.

ghost use Rattle.std.specs.Prelude.{◌≡◌, IfOk, codes, option_map, string_bytes};
ghost use Rattle.serde_json.specs.{Data.{object, member, no_members}, View.{items_of, items_view, view}, Written.{compact_text}};
ghost use Rattle.moo_http_response.specs.{Bodies.{error_body}, EachBodies.{first_answer, reply_body, alone_body, each_items, each_body}};
ghost use Rattle.moo_http_response.specs.Whys.{whys_shown};

use crate::bodies::{error_fields, literal_text, print_object};
use crate::replies::Replies;
use crate::whys::why_of;
use moo_text::Reply;
use moo_value::Value as Literal;
use serde_json::{Map, Value, put};
use std::alloc::{AllocError, Global};

/// The entry of a call that is refused: a word under `error`, and why under `why`, if that is told. The only error is a lack of memory.
fn error_entry(alloc: Global, word: &str, why: Option<&str>) -> Result<Value, AllocError>
    ensures { IfOk result (λ value. view value ≡ error_body (option_map (λ w. w.now) why.entry) word.now) }
{
    let mut fields = error_fields(alloc, word)?;
    let Some(why) = why else {
        return Ok(Value::Object(fields));
    };
    let why = String::from_str(alloc, why)?;
    put(&mut fields, alloc, "why", Value::String(why))?;
    Ok(Value::Object(fields))
}

/// The first answer as the text of its literal, or null if there is no answer. The only error is a lack of memory.
fn first_answer(alloc: Global, answers: &[Literal]) -> Result<Value, AllocError>
    ensures { IfOk result (λ value. view value ≡ first_answer answers.now) }
{
    match answers.split_first() {
        Some((answer, _)) => Ok(Value::String(literal_text(alloc, answer)?)),
        None => Ok(Value::Null),
    }
}

/// The entry of a call that is answered: its answer under `answer`. The only error is a lack of memory.
fn answer_entry(alloc: Global, answers: &[Literal]) -> Result<Value, AllocError>
    ensures { IfOk result (λ value. view value ≡ object (member (codes "answer") (first_answer answers.now) no_members)) }
{
    let answer = first_answer(alloc, answers)?;
    let mut fields = Map::new(alloc);
    put(&mut fields, alloc, "answer", answer)?;
    Ok(Value::Object(fields))
}

/// The entry of a call by its reply: its answer, or an error and why the call is refused, if that is told. The only error is a lack of
/// memory.
fn reply_entry(alloc: Global, reply: &Reply, why: Option<&str>) -> Result<Value, AllocError>
    ensures { IfOk result (λ value. view value ≡ reply_body (option_map (λ w. w.now) why.entry) reply.now) }
{
    match reply {
        Reply::Accepted { seq: _, answers } => answer_entry(alloc, answers.items()),
        Reply::Refused { call: _, code } => error_entry(alloc, code.name(), why),
        Reply::Full { call: _ } => error_entry(alloc, "full", why),
        Reply::Stale { seq: _ } => error_entry(alloc, "stale", None),
        Reply::NoMemory => error_entry(alloc, "nomemory", None),
    }
}

/// The entry of a text by its reply, or that of a text that isn't a call. The only error is a lack of memory.
fn alone_entry(alloc: Global, reply: &Option<Reply>, why: Option<&str>) -> Result<Value, AllocError>
    ensures { IfOk result (λ value. view value ≡ alone_body (option_map (λ w. w.now) why.entry) reply.now) }
{
    match reply {
        Some(reply) => reply_entry(alloc, reply, why),
        None => error_entry(alloc, "malformed", why),
    }
}

/// The entries of all texts, in their order, each with the sentence in its place. The only error is a lack of memory.
fn each_entries(
    alloc: Global,
    replies: &[Option<Reply>],
    whys: &[Option<String>],
) -> Result<Vec<Value>, AllocError>
    ensures { IfOk result (λ list. items_view list.items ≡ items_of (each_items (whys_shown whys.now) replies.now)) }
{
    let mut list = Vec::with_capacity(alloc, replies.len())?;
    for (i, reply) in replies.iter().enumerate() {
        list.push(alone_entry(alloc, reply, why_of(whys, i))?)?;
    }
    Ok(list)
}

/// The body that tells under `each` what each call is answered alone, and under `seq` the number of accepted batches. AllocError if memory
/// runs out.
pub(crate) fn each_text(
    alloc: Global,
    replies: &Replies,
    seq: u64,
    whys: &[Option<String>],
) -> Result<String, AllocError>
    ensures { IfOk result (λ text. string_bytes text ≡ compact_text (each_body (whys_shown whys.now) replies.now seq)) }
{
    let list = each_entries(alloc, replies.items(), whys)?;
    let mut fields = Map::new(alloc);
    put(&mut fields, alloc, "each", Value::Array(list))?;
    put(&mut fields, alloc, "seq", Value::from(seq))?;
    print_object(alloc, fields)
}
