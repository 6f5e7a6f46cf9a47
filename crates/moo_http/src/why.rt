//! Why what was asked is refused.

ghost use Rattle.std.specs.Prelude.{◌≡◌, ℕ, false, List, [], ◌∷◌, Option, IfOk};
ghost use Rattle.moo_http_response.specs.Responses.{response_with, response_text};
ghost use Rattle.moo_reasons.specs.Told.{AreTold, TellsPlace};
ghost use Rattle.moo_http.specs.Seen.{IsToldWith, TellsOutcome};

use crate::serve::Inquiry;
use moo_batch::Witness;
use moo_http_request::{Asked, BodyFault};
use moo_http_response::{Replies, RequestOutcome, answer_text};
use moo_reasons::{Whys, call_why};
use moo_text::Reply;
use std::alloc::{AllocError, Global};

/// The sentence that says why a text isn't a call. None if the text is one, or isn't known. AllocError if memory runs out.
fn text_why(alloc: Global, text: &Option<String>) -> Result<Option<String>, AllocError> {
    match text {
        Some(text) => Ok(Some(call_why(alloc, text)?)),
        None => Ok(None),
    }
}

/// The list with this one entry. AllocError if memory runs out.
fn one_why(alloc: Global, why: Option<String>) -> Result<Vec<Option<String>>, AllocError>
    ensures { IfOk result (λ whys. whys.items ≡ why ∷ []) }
{
    let mut whys = Vec::new(alloc);
    whys.push(why)?;
    Ok(whys)
}

/// The sentence that says what is wrong with a body, in a list; no sentence if no body was refused, or that isn't known. AllocError if
/// memory runs out.
fn body_whys(alloc: Global, asked: &Asked) -> Result<Vec<Option<String>>, AllocError> {
    let Asked::Refused(refused) = asked else {
        return Ok(Vec::new(alloc));
    };
    match refused.wrong() {
        Some(BodyFault::Shape(fault)) => one_why(alloc, Some(fault.to_string(alloc)?)),
        Some(BodyFault::Call(text)) => one_why(alloc, Some(call_why(alloc, text)?)),
        None => Ok(Vec::new(alloc)),
    }
}

/// The sentence that says why a call that was asked alone is refused, or why its text isn't a call. None if it is answered. AllocError if
/// memory runs out.
fn alone_why(
    alloc: Global,
    seen: &mut Whys,
    reply: &Option<Reply>,
    text: Option<&Option<String>>,
) -> Result<Option<String>, AllocError>
    // A reply that refuses takes the first refusal that was seen and not told yet.
    ensures { IfOk result (λ line. TellsPlace seen.old.seen.items reply.now line seen.new.seen.items) }
{
    match (reply, text) {
        (Some(reply), _) => seen.next(reply),
        (None, Some(text)) => text_why(alloc, text),
        _ => Ok(None),
    }
}

/// Why calls that were asked alone are refused: a sentence in the place of each call, and None for one that is answered. AllocError if
/// memory runs out.
fn each_whys(
    alloc: Global,
    seen: &mut Whys,
    replies: &Replies,
    texts: &[Option<String>],
) -> Result<Vec<Option<String>>, AllocError>
    // Each reply that refuses takes the first refusal that was seen and not told yet.
    ensures { IfOk result (λ lines. AreTold seen.old.seen.items replies.now lines.items seen.new.seen.items) }
{
    let mut each = Vec::new(alloc);
    for reply in replies.items() {
        let text = texts.get(each.len());
        each.push(alone_why(alloc, seen, reply, text)?)?;
    }
    Ok(each)
}

/// The texts of calls that were asked alone which aren't calls, each in its place.
fn bad_texts(asked: &Asked) -> &[Option<String>] {
    match asked {
        Asked::Each(each) => each.batches.bad_texts(),
        _ => &[],
    }
}

/// The place, from 1, of the last call that was judged, if `judged` of the calls asked alone were. Texts that aren't calls have places too.
/// None if what was asked isn't calls alone, or fewer of its texts are calls.
fn last_place(asked: &Asked, judged: u32) -> Option<u32> {
    let Asked::Each(each) = asked else {
        return None;
    };
    let mut left = judged;
    let mut place: u32 = 0;
    for batch in each.batches.items() {
        place = place.saturating_add(1);
        left = left.saturating_sub(u32::from(batch.is_some()));
        if left == 0 {
            return Some(place);
        }
    }
    None
}

/// The sentence that says which call spent the ticks of the request, in a list: None if none did. A call alone isn't judged if no tick was
/// left for it, and then it is the one. AllocError if memory runs out.
fn spent_whys(
    alloc: Global,
    seen: &mut Whys,
    asked: &Asked,
) -> Result<Vec<Option<String>>, AllocError> {
    let judged = seen.judged_batches();
    let why = seen.spent_why(last_place(asked, judged))?;
    if why.is_some() || seen.ticks() != Some(0) {
        return one_why(alloc, why);
    }
    let Some(place) = last_place(asked, judged.saturating_add(1)) else {
        return one_why(alloc, why);
    };
    seen.see_spent(place);
    one_why(alloc, seen.spent_why(Some(place))?)
}

/// The sentences that say why what was asked is refused: of calls that are asked alone one for each, else the first. They say it of a body,
/// of a batch, of calls alone, and of the call that spent the ticks of the request. AllocError if memory runs out.
fn find_whys(
    alloc: Global,
    seen: &mut Whys,
    outcome: &RequestOutcome,
    asked: &Asked,
) -> Result<Vec<Option<String>>, AllocError>
    ensures { IfOk result (λ lines. TellsOutcome seen.old.seen.items outcome.now lines.items seen.new.seen.items) }
{
    match outcome {
        RequestOutcome::Refused(_) => body_whys(alloc, asked),
        RequestOutcome::Replied(reply) => one_why(alloc, seen.next(reply)?),
        RequestOutcome::Each(replies, _) => each_whys(alloc, seen, replies, bad_texts(asked)),
        RequestOutcome::NoMemory => spent_whys(alloc, seen, asked),
        _ => Ok(Vec::new(alloc)),
    }
}

/// The bytes of the answer to what was asked, which say why it is refused if that was asked too. If memory for the sentences runs out, the
/// answer says nothing of why. AllocError if memory for the answer runs out.
pub(crate) fn answer_with_whys(
    alloc: Global,
    seen: &mut Whys,
    inquiry: &Inquiry,
    outcome: RequestOutcome,
) -> Result<Vec<u8>, AllocError>
    // The bytes are the answer to the outcome. Each reply that refuses is told with the first refusal that was seen and not told yet, or no
    // sentence is told, as if that wasn't asked.
    ensures { IfOk result (λ bytes. (whys : List (Option (List ℕ))) × (inquiry.now.asks_why ≡ false → whys ≡ [])
        × (bytes.items ≡ response_text inquiry.now.is_head (response_with inquiry.now.asks_why whys outcome))
        × IsToldWith seen.old.seen.items outcome whys) }
{
    let is_head = inquiry.is_head;
    let asks_why = inquiry.asks_why;
    if !asks_why {
        return answer_text(alloc, outcome, asks_why, &[], is_head);
    }
    let whys = match find_whys(alloc, seen, &outcome, &inquiry.asked) {
        Ok(whys) => whys,
        Err(_) => Vec::new(alloc),
    };
    answer_text(alloc, outcome, asks_why, &whys, is_head)
}
