//! Saying why a batch isn't accepted, in one line of at most 1,000 bytes: tabs and printing ASCII.

ghost use Rattle.std.specs.Prelude.{◌≡◌, [], false, IfOk};
ghost use Rattle.moo_reasons.specs.{Lines.{IsShort}, Seen.{Seen, SeesRefusal, seen_by}, Told.{IsFirstLine, TellsReply}};

use crate::faults::put_call_reason;
use crate::line::{Why, shortened_text};
use crate::said::Said;
use crate::sentence::refusal_text;
use moo_batch::{Facts, Refusal, Witness};
use moo_text::Reply;
use moo_world::Batch;
use std::alloc::{AllocError, Global};
use std::collections::VecDeque;

/// Why a batch is Full, in words: no number is left for what the call of this number makes, or, for 0, for what the batch itself does.
pub(crate) fn room_reason(call: u32) -> &'static str {
    if call == 0 {
        "no number is left for what the batch makes"
    } else {
        "no number is left for what the call makes"
    }
}

/// Why a text isn't a call, in at most 1,000 bytes; of a call, that a batch has at most 1,000. AllocError: memory ran out.
pub fn call_why(alloc: Global, text: &str) -> Result<String, AllocError>
    ensures { IfOk result IsShort }
{
    let mut said = Said::new(alloc);
    put_call_reason(&mut said, text.as_bytes())?;
    shortened_text(said)
}

/// Why the batches of a request are refused, in their order, if that is wanted; and the ticks of the request, which its batches share.
#[derive(Drop)]
pub struct Whys {
    alloc: Global,
    /// Whether lines are wanted.
    is_wanted: bool,
    /// The lines that weren't taken yet.
    seen: VecDeque<Why>,
    /// Memory ran out for one of them.
    is_lost: bool,
    /// How many ticks the request has, and how many are left.
    ticks: u32,
    left: u64,
    /// How many batches were judged.
    judged: u32,
    /// The call of the last batch at which ticks were spent.
    spent_at: Option<u32>,
}

impl Whys {
    /// The whys of a request with so many ticks, of which no batch is judged yet. Lines are kept only if `is_wanted`.
    pub fn new(alloc: Global, is_wanted: bool, ticks: u32) -> Whys
        // Lines are wanted if `is_wanted`, and else not.
        ensures wanted { result.is_wanted ≡ is_wanted }
        // There is no line yet.
        ensures none { result.seen.items ≡ [] }
        // Memory hasn't run out for a line.
        ensures kept { result.is_lost ≡ false }
    {
        Whys {
            alloc,
            is_wanted,
            seen: VecDeque::new(alloc),
            is_lost: false,
            ticks,
            left: u64::from(ticks),
            judged: 0,
            spent_at: None,
        }
    }

    /// How many batches were judged.
    pub fn judged_batches(&self) -> u32 {
        self.judged
    }

    /// Which call spent the ticks of the request: by its number in the last batch, from 1, or by `place` if that is given; `None` if no
    /// call did. AllocError: memory ran out.
    pub fn spent_why(&self, place: Option<u32>) -> Result<Option<String>, AllocError> {
        let Some(call) = self.spent_at else {
            return Ok(None);
        };
        let call = place.unwrap_or(call);
        let ticks = self.ticks;
        Ok(Some(format!(in self.alloc; "call {call}: over {ticks} ticks (moo serve --ticks)")?))
    }

    /// Takes the first line that wasn't taken yet; `None` if there is no such line.
    fn next_line(&mut self) -> Option<String>
        ensures { IsFirstLine self.old.seen.items result self.new.seen.items }
    {
        match self.seen.pop_front() {
            Some(why) => Some(why.into_text()),
            None => None,
        }
    }

    /// Why the next batch, in the order of the batches, got this reply: the call that failed, its error and the check, if lines are wanted;
    /// what there is no room for; or which call spent the ticks. `None` for any other reply, and for a refused batch if lines aren't
    /// wanted. AllocError: memory ran out, now or for a line before.
    pub fn next(&mut self, reply: &Reply) -> Result<Option<String>, AllocError>
        // A reply Refused is told with the first line that wasn't taken yet, if there is one, and takes it; another reply takes none.
        ensures { IfOk result (λ line. TellsReply self.old.seen.items reply.now line self.new.seen.items) }
    {
        if self.is_lost {
            return Err(AllocError);
        }
        match reply {
            Reply::Refused { call: _, code: _ } => Ok(self.next_line()),
            Reply::Full { call } => Ok(Some(String::from_str(self.alloc, room_reason(*call))?)),
            Reply::NoMemory => self.spent_why(None),
            _ => Ok(None),
        }
    }
}

impl Witness for Whys {
    ghost use Rattle.std.specs.Prelude.{Some};

    ghost Kept = { Seen };

    ghost kept = { seen_by };

    ghost sees = { SeesRefusal };

    ghost left = { λ w. Some w.left };

    /// How many ticks of the request are left; never `None`.
    fn ticks(&self) -> Option<u64> {
        Some(self.left)
    }

    /// Sets how many ticks of the request are left, and counts one more batch that was judged.
    fn leave(&mut self, ticks: u64) {
        self.left = ticks;
        self.judged = self.judged.saturating_add(1);
    }

    /// Keeps the number of the call at which ticks were spent, for `spent_why`.
    fn see_spent(&mut self, call: u32) {
        self.spent_at = Some(call);
    }

    /// Whether lines are wanted.
    fn wants_facts(&self) -> bool {
        self.is_wanted
    }

    /// Keeps the line that says why the batch is refused, if lines are wanted; or notes that memory ran out for it.
    fn see(&mut self, batch: &Batch, refusal: Refusal, facts: Option<&Facts<'_>>) {
        if !self.is_wanted {
            return;
        }
        let why = match facts {
            Some(facts) => match refusal_text(self.alloc, batch, refusal, facts) {
                Ok(said) => Why::new(refusal, said),
                Err(fault) => Err(fault),
            },
            None => Err(AllocError),
        };
        let is_kept = match why {
            Ok(why) => self.seen.push_back(why).is_ok(),
            Err(_) => false,
        };
        self.is_lost = self.is_lost || !is_kept;
    }
}
