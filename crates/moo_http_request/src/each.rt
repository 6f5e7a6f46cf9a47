//! Calls that are asked each alone.

ghost use Rattle.std.specs.Prelude.{◌≡◌, map, IfOk};
ghost use Rattle.moo_http_request.specs.Alone.{alone};

use moo_text::call_of;
use moo_value::ObjNo;
use moo_world::{Batch, Calls};
use std::alloc::{AllocError, Global};
use std::marker::Model;

/// A batch of the one call that a text is, for each text; None if it isn't a call.
#[derive(Drop)]
pub struct Batches {
    items: Vec<Option<Batch>>,
    /// Each text that isn't a call, at its place. There are none if memory for them was refused.
    bad_texts: Vec<Option<String>>,
}

impl Model for Batches {
    ghost use Rattle.std.specs.Prelude.{List, Option};
    ghost use Rattle.moo_world.specs.declared.call.Batch.{Batch};
    ghost use Rattle.moo_world.specs.contracts.call.Batch as batch;
    ghost use Rattle.std.specs.Coded.{coded_list, coded_option};

    ghost Value = { List (Option Batch) };

    ghost coded = { coded_list (coded_option batch.the_row.coded) };

    ghost view = { λ a. a.items.items };
}

impl Batches {
    /// The batches, in the order of the texts.
    pub fn items(&self) -> &[Option<Batch>]
        ensures { result.now ≡ self.now }
    {
        self.items.as_slice()
    }

    /// Each text that isn't a call, at its place, and None at the places of the others. The list is empty if memory for it was refused.
    pub fn bad_texts(&self) -> &[Option<String>] {
        self.bad_texts.as_slice()
    }
}

/// Calls that are asked each alone, and the number that they are meant for, if they name one.
#[derive(Drop)]
pub struct Each {
    pub at: Option<u64>,
    pub batches: Batches,
}

/// A batch of the one call that a text is. None if it isn't a call. AllocError if memory runs out.
fn read_alone(alloc: Global, programmer: ObjNo, text: &str) -> Result<Option<Batch>, AllocError>
    ensures { IfOk result (λ batch. batch ≡ alone programmer text.now) }
{
    let Some(call) = call_of(alloc, text.as_bytes())? else {
        return Ok(None);
    };
    let mut calls = Vec::new(alloc);
    calls.push(call)?;
    Ok(Some(Batch {
        programmer,
        at: None,
        calls: Calls::from_vec(calls),
    }))
}

/// Each text that isn't a call, at its place, and None at the places of the others. AllocError if memory runs out.
fn bad_texts(
    alloc: Global,
    texts: &[&str],
    batches: &[Option<Batch>],
) -> Result<Vec<Option<String>>, AllocError> {
    let mut bad = Vec::new(alloc);
    for (i, text) in texts.iter().enumerate() {
        match batches.get(i) {
            Some(None) => bad.push(Some(String::from_str(alloc, text)?))?,
            _ => bad.push(None)?,
        }
    }
    Ok(bad)
}

/// A batch of each text, by this programmer, and None in the place of a text that isn't a call; beside them the texts that aren't calls, or
/// none of those if memory for them is refused. AllocError if memory for the batches runs out.
pub(crate) fn read_each(
    alloc: Global,
    programmer: ObjNo,
    texts: &[&str],
) -> Result<Batches, AllocError>
    ensures { IfOk result (λ batches. batches ≡ map (λ text. alone programmer text.now) texts.now) }
{
    let mut batches = Vec::new(alloc);
    for text in texts {
        batches.push(read_alone(alloc, programmer, text)?)?;
    }
    let bad_texts = bad_texts(alloc, texts, &batches).unwrap_or(Vec::new(alloc));
    Ok(Batches {
        items: batches,
        bad_texts,
    })
}
