//! Replies, and the lines that answer the batches of a text.

ghost use Rattle.std.specs.{Prelude.{◌≡◌, ◌++◌, [], ◌∷◌, OnOk, OnErr}, Fmt.{decimal}, List.{flat_map}, Io.{StartsWith}};
ghost use Rattle.moo_text.specs.Replies.{answer_line, accepted_text, refused_text, reply_text, answer_text};

use moo_value::{Code, Value, print_literal};
use moo_world::Answers;
use std::alloc::{AllocError, Global};

/// What a batch is answered.
#[derive(Drop)]
pub enum Reply {
    /// All its calls were done; `seq` is how many batches are accepted with it.
    Accepted { seq: u64, answers: Answers },
    /// Its call number `call`, from 1 on, failed with `code`, and nothing changed.
    Refused { call: u32, code: Code },
    /// Its call number `call` found no number left, or, with 0, the batch itself found none; nothing changed.
    Full { call: u32 },
    /// It named another number of accepted batches than `seq`, the present one.
    Stale { seq: u64 },
    /// Memory ran out, and nothing changed.
    NoMemory,
}

/// What is written for one batch of a text.
#[derive(Drop)]
pub enum Answer {
    /// The batch was read whole.
    Replied(Reply),
    /// The number of the batch's first bad line.
    Malformed(u32),
    /// The text ended inside the batch.
    Truncated,
    /// The store failed.
    Fault,
    /// The store failed before.
    Closed,
}

/// Appends a word, a number in decimal and an end. The only error is a lack of memory; some of the bytes may be there then.
#[tactic(auto, using(crate::proofs::Putting::kept_last, moo_value::proofs::Printed::starts, moo_value::proofs::Printed::starts_alike, moo_value::proofs::Printed::starts_behind))]
fn put_word_and_number(
    alloc: Global,
    word: &[u8],
    number: u64,
    end: &[u8],
    out: &mut Vec<u8>,
) -> Result<(), AllocError>
    ensures ok { OnOk result (out.new.items ≡ out.old.items ++ (word.now ++ (decimal number ++ end.now))) }
    // The bytes begin with those from before, after an error too.
    ensures kept { StartsWith out.new.items out.old.items }
{
    let digits = number.to_string(alloc)?;
    out.extend_from_slice(word)?;
    out.extend_from_slice(digits.as_bytes())?;
    out.extend_from_slice(end)
}

/// Appends a line of a word and a number in decimal. The only error is a lack of memory; some of the bytes may be there then.
fn put_number_line(
    alloc: Global,
    word: &[u8],
    number: u64,
    out: &mut Vec<u8>,
) -> Result<(), AllocError>
    ensures ok { OnOk result (out.new.items ≡ out.old.items ++ (word.now ++ (decimal number ++ 10 ∷ []))) }
    // The bytes begin with those from before, after an error too.
    ensures kept { StartsWith out.new.items out.old.items }
{
    put_word_and_number(alloc, word, number, b"\n", out)
}

/// Appends the line `refused N E_CODE`. The only error is a lack of memory; some of the bytes may be there then.
#[tactic(auto, using(crate::proofs::Putting::kept_last, moo_value::proofs::Printed::starts, moo_value::proofs::Printed::starts_behind))]
fn put_refused(alloc: Global, call: u32, code: Code, out: &mut Vec<u8>) -> Result<(), AllocError>
    ensures ok { OnOk result (out.new.items ≡ out.old.items ++ refused_text call code) }
    // The bytes begin with those from before, after an error too.
    ensures kept { StartsWith out.new.items out.old.items }
{
    put_word_and_number(alloc, b"refused ", u64::from(call), b" ", out)?;
    out.extend_from_slice(code.name().as_bytes())?;
    out.extend_from_slice(b"\n")
}

/// Appends a line for each answer, its literal. The only error is a lack of memory; some of the bytes may be there then.
fn put_answers(alloc: Global, values: &[Value], out: &mut Vec<u8>) -> Result<(), AllocError>
    ensures ok { OnOk result (out.new.items ≡ out.old.items ++ flat_map answer_line values.now) }
    // The bytes begin with those from before, after an error too.
    ensures kept { StartsWith out.new.items out.old.items }
{
    for value in values {
        print_literal(alloc, value, out)?;
        out.push(b'\n')?;
    }
    Ok(())
}

/// Appends the line `accepted N`, the answers, and the line `end`. The only error is a lack of memory; some of the bytes may be there then.
fn put_accepted(
    alloc: Global,
    seq: u64,
    answers: &Answers,
    out: &mut Vec<u8>,
) -> Result<(), AllocError>
    ensures ok { OnOk result (out.new.items ≡ out.old.items ++ accepted_text seq answers.now) }
    // The bytes begin with those from before, after an error too.
    ensures kept { StartsWith out.new.items out.old.items }
{
    put_number_line(alloc, b"accepted ", seq, out)?;
    put_answers(alloc, answers.items(), out)?;
    out.extend_from_slice(b"end\n")
}

/// Appends the lines of a reply. The only error is a lack of memory; some of the bytes may be there then.
#[tactic(auto, using(crate::proofs::Putting::put_first, crate::proofs::Putting::kept_first))]
pub(crate) fn put_reply(alloc: Global, reply: &Reply, out: &mut Vec<u8>) -> Result<(), AllocError>
    ensures ok { OnOk result (out.new.items ≡ out.old.items ++ reply_text reply.now) }
    // The bytes begin with those from before, after an error too.
    ensures kept { StartsWith out.new.items out.old.items }
{
    match reply {
        Reply::Accepted { seq, answers } => put_accepted(alloc, *seq, answers, out),
        Reply::Refused { call, code } => put_refused(alloc, *call, *code, out),
        Reply::Full { call } => put_number_line(alloc, b"full ", u64::from(*call), out),
        Reply::Stale { seq } => put_number_line(alloc, b"stale ", *seq, out),
        Reply::NoMemory => out.extend_from_slice(b"nomemory\n"),
    }
}

/// Appends the lines that answer a batch of a text. The only error is a lack of memory; some of the bytes may be there then.
#[tactic(auto, using(crate::proofs::Putting::put_first, crate::proofs::Putting::kept_first))]
fn put_answer(alloc: Global, answer: &Answer, out: &mut Vec<u8>) -> Result<(), AllocError>
    ensures ok { OnOk result (out.new.items ≡ out.old.items ++ answer_text answer.now) }
    // The bytes begin with those from before, after an error too.
    ensures kept { StartsWith out.new.items out.old.items }
{
    match answer {
        Answer::Replied(reply) => put_reply(alloc, reply, out),
        Answer::Malformed(number) => put_number_line(alloc, b"malformed ", u64::from(*number), out),
        Answer::Truncated => out.extend_from_slice(b"truncated\n"),
        Answer::Fault => out.extend_from_slice(b"fault\n"),
        Answer::Closed => out.extend_from_slice(b"closed\n"),
    }
}

/// Appends the lines that answer a batch of a text. The only error is a lack of memory, and it leaves the bytes as they were.
pub fn print_answer(alloc: Global, answer: &Answer, out: &mut Vec<u8>) -> Result<(), AllocError>
    // Just the lines of the answer are appended.
    ensures ok { OnOk result (out.new.items ≡ out.old.items ++ answer_text answer.now) }
    // After an error the bytes are as they were.
    ensures err { OnErr result (out.new.items ≡ out.old.items) }
{
    let start = out.len();
    let result = put_answer(alloc, answer, out);
    if result.is_err() {
        out.truncate(start);
    }
    result
}
