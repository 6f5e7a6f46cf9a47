//! What a question is told, and the status and the body that tell it.

ghost use Rattle.std.specs.{Prelude.{◌≡◌, IfOk, OnErr}, Option.{option_map_or}};
ghost use Rattle.moo_world.specs.{Judge.{state_of}, Rows.{IsGood}};
ghost use Rattle.moo_dump.specs.Dump.{dump};
ghost use Rattle.moo_http_response.specs.{Told.{told_of, TellingTakesMemory}, Responses.{told_response}};

use crate::bodies::{error_text, number_text};
use crate::look_body::look_text;
use crate::page::{Page, page_of};
use crate::page_body::page_text;
use crate::text::Text;
use http::StatusCode;
use moo_dump::{Look, dump, look};
use moo_http_request::Question;
use moo_rows::Rows;
use std::alloc::{AllocError, Global};

/// Room after a dump for the head of its answer, which is then put before it without more memory.
const HEAD_ROOM: usize = 256;

/// What a question is told.
#[derive(Drop)]
pub enum Told {
    /// The number of accepted batches.
    Seq(u64),
    /// What the object looks like.
    Object(Look),
    /// The number is that of no object.
    NoObject,
    /// Some of the objects, and the number of accepted batches.
    Objects(Page, u64),
    /// All that the world holds.
    Dump(Text),
}

/// What is told of a look at an object: what it looks like, or NoObject if no object has the number.
fn told_of_look(look: Option<Look>) -> Told
    ensures { result ≡ option_map_or Told.Object look Told.NoObject }
{
    look.map_or(Told::NoObject, Told::Object)
}

/// All that the rows hold, as text, in memory that has room for a head. The only error is a lack of memory.
fn dump_with_room<R: Rows>(alloc: Global, rows: &R) -> Result<Text, AllocError>
    // The rows are good: sound rows of a well formed world, and petitions as they may be beside it.
    requires { IsGood (R.held rows.now).maps }
    ensures { IfOk result (λ text. text ≡ dump (state_of (R.held rows.now).maps)) }
{
    let mut bytes = Vec::new(alloc);
    let Ok(()) = dump(alloc, rows, &mut bytes) else {
        return Err(AllocError);
    };
    bytes.reserve_exact(HEAD_ROOM)?;
    Ok(Text::from_vec(bytes))
}

/// What the rows of a world tell of a question. The only error is a lack of memory.
pub fn tell<R: Rows>(alloc: Global, rows: &R, question: Question) -> Result<Told, AllocError>
    // The rows are good: sound rows of a well formed world, and petitions as they may be beside it.
    requires { IsGood (R.held rows.now).maps }
    // It is what the question is told at the state of these rows.
    ensures told { IfOk result (λ told. told ≡ told_of question (state_of (R.held rows.now).maps)) }
    // Memory can't run out for the number of accepted batches.
    ensures memory { OnErr result (TellingTakesMemory question) }
{
    match question {
        Question::Seq => Ok(Told::Seq(rows.head().seq)),
        Question::Object(number) => Ok(told_of_look(look(alloc, rows, number)?)),
        Question::Objects(number) => {
            Ok(Told::Objects(page_of(alloc, rows, number)?, rows.head().seq))
        }
        Question::Dump => Ok(Told::Dump(dump_with_room(alloc, rows)?)),
    }
}

/// The status of the response to a question, by what it is told: 404 if the object isn't there, else 200.
pub(crate) fn status_of(told: &Told) -> StatusCode
    ensures { result ≡ (told_response told.now).status }
{
    match told {
        Told::Seq(_) | Told::Object(_) | Told::Objects(_, _) | Told::Dump(_) => StatusCode::OK,
        Told::NoObject => StatusCode::NOT_FOUND,
    }
}

/// The kind of the body of the response to a question, by what it is told: a dump is plain text, and all else is JSON.
pub(crate) fn kind_of(told: &Told) -> &'static str
    ensures { result.now ≡ (told_response told.now).kind }
{
    match told {
        Told::Dump(_) => "text/plain",
        _ => "application/json",
    }
}

/// The bytes of the body of the response to a question, by what it is told. AllocError if memory runs out.
pub(crate) fn told_bytes(alloc: Global, told: Told) -> Result<Vec<u8>, AllocError>
    ensures { IfOk result (λ bytes. bytes.items ≡ (told_response told).body) }
{
    match told {
        Told::Seq(seq) => Ok(number_text(alloc, "seq", seq)?.into_bytes()),
        Told::Object(look) => Ok(look_text(alloc, &look)?.into_bytes()),
        Told::NoObject => Ok(error_text(alloc, "E_INVARG")?.into_bytes()),
        Told::Objects(page, seq) => Ok(page_text(alloc, &page, seq)?.into_bytes()),
        Told::Dump(text) => Ok(text.into_vec()),
    }
}
