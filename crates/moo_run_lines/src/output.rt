//! What is written of a failure, and the lines with numbers.

ghost use Rattle.std.specs.{Prelude.{MatchResult, ◌≡◌, ◌++◌, IfOk, codes}, Fmt.{decimal}};
ghost use Rattle.moo_run_lines.specs.Lines.{WritesLine, Reports, word_of, status_of, checked_line, loaded_line};
ghost use Rattle.moo_damage.specs.Words.{kind_text, key_text};

use crate::failure::Failure;
use moo_damage::{Key, Kind};
use moo_store::Tally;
use moo_text::put_all;
use sqlite::{Error, ErrorCode};
use std::alloc::{AllocError, Global};
use std::io::{Eprint, Write};

/// The line that `moo check` writes of a whole world: its number, and how many objects it has. The only error is a lack of memory.
pub fn checked_line(alloc: Global, seq: u64, objects: u64) -> Result<String, AllocError>
    ensures { IfOk result (λ text. text.bytes.items ≡ checked_line seq objects) }
{
    format!(in alloc; "ok seq {seq} objects {objects}\n")
}

/// The line of a damage, with its kind and its place. The only error is a lack of memory.
fn damaged_text(alloc: Global, kind: Kind, key: Key) -> Result<String, AllocError>
    ensures { IfOk result (λ text. text.bytes.items ≡
        codes "moo: damaged " ++ (kind_text kind ++ (codes " " ++ (key_text key ++ codes "\n")))) }
{
    format!(in alloc; "moo: damaged {kind} {key}\n")
}

/// The line that `moo load` writes of the world that it made: its number, and how many objects it has. The only error is a lack of memory.
pub fn loaded_line(alloc: Global, seq: u64, objects: u64) -> Result<String, AllocError>
    ensures { IfOk result (λ text. text.bytes.items ≡ loaded_line seq objects) }
{
    format!(in alloc; "loaded seq {seq} objects {objects}\n")
}

/// The line of a text that isn't a dump, with the number of the line, from 1, that no dump has there. The only error is a lack of memory.
fn not_a_dump_text(alloc: Global, line: u64) -> Result<String, AllocError>
    ensures { IfOk result (λ text. text.bytes.items ≡ codes "moo: not a dump, line " ++ (decimal line ++ codes "\n")) }
{
    format!(in alloc; "moo: not a dump, line {line}\n")
}

/// Writes a line, and answers this status; or 1, the status of a writer that fails, if it does.
pub fn put_line<W: Write>(line: &str, status: u8, output: &mut W) -> u8
    ensures { WritesLine line.now status (W.contents output.old) (W.contents output.new) result }
{
    match put_all(output, line.as_bytes()) {
        Ok(()) => status,
        Err(_) => Failure::Write.status(),
    }
}

/// The sentence that says why the store failed. None if the cause has no sentence here, but the words of its error.
fn store_cause(error: Error) -> Option<&'static str> {
    match error {
        Error::SqliteFailure(ErrorCode::DatabaseBusy) => {
            Some("moo: store fault: in use by another program")
        }
        Error::SqliteFailure(ErrorCode::NotADatabase) => {
            Some("moo: store fault: not a database of moo")
        }
        Error::SqliteFailure(ErrorCode::NameTaken) => {
            Some("moo: store fault: it has tables already")
        }
        Error::SqliteFailure(ErrorCode::DiskFull) => Some("moo: store fault: the disk is full"),
        _ => None,
    }
}

/// Says on standard error why the store, the batches, the dump or the port failed.
fn explain<C: Eprint>(console: &C, failure: Failure) {
    let cause = match failure {
        Failure::NoFile => Some("moo: store fault: no such file"),
        Failure::NoBatches => {
            Some("moo: read fault: no such file of batches or dump, or it can't be opened")
        }
        Failure::Read => Some("moo: read fault: the batches or the dump can't be read to the end"),
        Failure::Port => Some("moo: cannot listen: is the port in use, or one below 1024?"),
        Failure::Store(error) => store_cause(error),
        _ => return,
    };
    if let Some(cause) = cause {
        let _said = eprintln!(console; "{cause}");
    } else if let Failure::Store(error) = failure {
        let _said = eprintln!(console; "moo: store fault: {error}");
    }
}

/// What is said if the store failed in a batch.
const LOST: &str =
    "moo: store fault: the store failed in the batch that is answered `fault` (is the disk full?)
moo: the last `accepted S` is kept, and perhaps the batch after it: `moo check FILE` says the number\n";

/// Says on standard error what to do if the store failed in a batch of a text.
pub fn explain_lost<C: Eprint>(console: &C, tally: Tally) {
    if tally.lost > 0 {
        let _said = eprint!(console; "{LOST}");
    }
}

/// Writes a line that was made, and answers this status; or, if there was no memory to make it, writes that and answers its status, 4. If
/// the writer fails the status is 1.
fn put_made_line<W: Write>(line: Result<String, AllocError>, status: u8, output: &mut W) -> u8
    ensures { MatchResult line
        (λ text. WritesLine text.bytes.items status (W.contents output.old) (W.contents output.new) result)
        (λ _. WritesLine (word_of Failure.OutOfMemory) (status_of Failure.OutOfMemory)
        (W.contents output.old) (W.contents output.new) result) }
{
    match line {
        Ok(line) => put_line(line.as_str(), status, output),
        Err(_) => put_line(
            Failure::OutOfMemory.word(),
            Failure::OutOfMemory.status(),
            output,
        ),
    }
}

/// Writes the line of a damage, and answers its status, 3; or, if memory runs out, the line and the status of that.
fn put_damage<W: Write>(alloc: Global, kind: Kind, key: Key, output: &mut W) -> u8
    ensures { Reports (Failure.Damaged kind key) (W.contents output.old) (W.contents output.new) result }
{
    put_made_line(
        damaged_text(alloc, kind, key),
        Failure::Damaged(kind, key).status(),
        output,
    )
}

/// Writes the line of a text that isn't a dump, and answers its status, 3; or, if memory runs out, the line and the status of that.
fn put_not_a_dump<W: Write>(alloc: Global, line: u64, output: &mut W) -> u8
    ensures { Reports (Failure.NotADump line) (W.contents output.old) (W.contents output.new) result }
{
    put_made_line(
        not_a_dump_text(alloc, line),
        Failure::NotADump(line).status(),
        output,
    )
}

/// Writes the line of a failure, and answers its status, or 1 if the writer fails.
pub fn put_failure<W: Write>(alloc: Global, failure: Failure, output: &mut W) -> u8
    ensures { Reports failure (W.contents output.old) (W.contents output.new) result }
{
    match failure {
        Failure::Damaged(kind, key) => put_damage(alloc, kind, key, output),
        Failure::NotADump(line) => put_not_a_dump(alloc, line, output),
        _ => put_line(failure.word(), failure.status(), output),
    }
}

/// Writes the line of a failure, and answers its status, or 1 if the writer fails. If the store, the batches, the dump or the port failed,
/// the cause goes to standard error.
pub fn report<C: Eprint, W: Write>(
    alloc: Global,
    console: &C,
    failure: Failure,
    output: &mut W,
) -> u8
    ensures { Reports failure (W.contents output.old) (W.contents output.new) result }
{
    explain(console, failure);
    put_failure(alloc, failure, output)
}
