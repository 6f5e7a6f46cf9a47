//! The world of a dump.

ghost use Rattle.std.specs.Prelude.{◌≡◌, ◌≢◌, ◌<◌, ◌^◌, ℕ, List, true, false, length, codes, IfOk, IfErr, IfSome, MatchOption};
ghost use Rattle.std.specs.Str.{bytes_eq};
ghost use Rattle.moo_world.specs.{Rows.{IsGood}, Judge.{State, state_of}};
ghost use Rattle.moo_dump.specs.Dump.{dump as dump_of};
ghost use Rattle.moo_load.specs.{OneState.{IsHeld}, RowsOf.{AreRowsOf}, declared.fault.LoadFault.TheVariants.{OutOfMemory}};
ghost use Rattle.moo_run.specs.{Given.{texts_by}, Run.{RefusesDump, TellsLack, FindsRows, ReadsFile, dump_word, is_load, reads_input}};

use crate::host::BatchFiles;
use crate::session::{HasRun, Session, Streams};
use moo_cli::{Action, Task};
use moo_load::{LoadFault, read_dump, read_text};
use moo_load_reasons::{WHAT_TO_DO, is_lambdamoo, why_of_fault};
use moo_memory::Flat;
use moo_run_lines::Failure;
use std::alloc::Global;
use std::io::{Eprint, Read};

/// The word that names the dump of a task, if the task is a load; else None.
fn dump_word<'a>(task: Task<'a>) -> Option<&'a str>
    ensures { MatchOption result
        (is_load task.entry.action ≡ false)
        (λ dump. (is_load task.entry.action ≡ true) × (dump_word task.entry.action ≡ dump.now)) }
{
    match task.action {
        Action::Load { dump } => Some(dump),
        _ => None,
    }
}

/// Says a sentence about a text on standard error. The path is that of the text, if it isn't standard input.
fn say_of_text<C: Eprint>(console: &C, path: Option<&str>, why: &str) {
    match path {
        Some(path) => {
            let _said = eprintln!(console; "moo: {path}: {why}");
        }
        None => {
            let _said = eprintln!(console; "moo: {why}");
        }
    }
}

/// Says on standard error why a text gives no world, and in which line; or that it is a LambdaMOO database.
fn explain_dump<C: Eprint>(
    alloc: Global,
    console: &C,
    path: Option<&str>,
    text: &[u8],
    fault: LoadFault,
) {
    if is_lambdamoo(text) {
        say_of_text(console, path, WHAT_TO_DO);
    } else if let Ok(Some(why)) = why_of_fault(alloc, text, fault) {
        say_of_text(console, path, why.as_str());
    }
}

/// Reads the world of a text that is a dump. If the text gives none, standard error says why. NotADump if a line isn't one of a dump,
/// Damaged if the lines show no world, OutOfMemory if memory runs out.
fn read_or_explain<C: Eprint>(
    alloc: Global,
    console: &C,
    path: Option<&str>,
    text: &[u8],
) -> Result<Flat, LoadFault>
    // The dump of the rows is the text, byte for byte.
    ensures loaded { IfOk result (λ rows. dump_of (state_of rows.maps) ≡ text.now) }
    ensures good { IfOk result (λ rows. IsGood rows.maps) }
    ensures limit { IfOk result (λ rows. rows.maps.head.seq < 2 ^ 63) }
    // Properties and verbs are numbered from 1, in the order of the dump.
    ensures numbered { IfOk result (λ rows. AreRowsOf (state_of rows.maps) rows.maps) }
    // Unless memory ran out, a text of less than 4,294,967,295 bytes that is refused isn't the dump of any well formed state.
    ensures complete { IfErr result (λ fault. fault ≢ OutOfMemory → length text.now < 4294967295 →
        (s : State) → IsHeld s → dump_of s ≢ text.now) }
{
    let read = read_dump(alloc, text);
    if let Err(fault) = &read {
        explain_dump(alloc, console, path, text, *fault);
    }
    read
}

/// The rows of the world that a text is the dump of. If it isn't one, standard error says why. A failure too if the text can't be read, is
/// over 1,073,741,824 bytes, or memory runs out.
fn rows_of_dump<C: Eprint, R: Read + Drop>(
    alloc: Global,
    console: &C,
    path: Option<&str>,
    mut text: R,
) -> Result<Flat, Failure>
    ensures good { IfOk result (λ rows. IsGood rows.maps) }
    ensures limit { IfOk result (λ rows. rows.maps.head.seq < 2 ^ 63) }
    // Properties and verbs are numbered from 1, in the order of the dump.
    ensures numbered { IfOk result (λ rows. AreRowsOf (state_of rows.maps) rows.maps) }
    // The dump of the rows is the text, byte for byte, if the text is known.
    ensures dumped { IfOk result (λ rows. IfSome (R.remaining text) (λ bytes. dump_of (state_of rows.maps) ≡ bytes)) }
    // The failure is one of a dump: the dump of a well formed state, of at most 1,073,741,824 bytes, is refused only if it can't be read,
    // or memory ran out.
    ensures failure { IfErr result (λ failure. RefusesDump (R.remaining text) failure × (failure ≢ Failure.NoBatches)) }
{
    let bytes = read_text(alloc, &mut text)?;
    let rows = read_or_explain(alloc, console, path, &bytes)?;
    Ok(rows)
}

/// The rows of the world that a file is the dump of, or the input for `-`. If it isn't a dump, standard error says why. NoBatches if the
/// file can't be opened; else the failures of `rows_of_dump`.
pub(crate) fn read_world<C: Eprint, H: BatchFiles, R: Read + Drop>(
    alloc: Global,
    console: &C,
    dump: &str,
    host: &H,
    input: &mut R,
) -> Result<Flat, Failure>
    // The file of this path may be read, if it isn't the input.
    requires read { bytes_eq dump.now (codes "-") ≡ false → H.may_read host.now dump.now }
    ensures good { IfOk result (λ rows. IsGood rows.maps) }
    ensures limit { IfOk result (λ rows. rows.maps.head.seq < 2 ^ 63) }
    // Properties and verbs are numbered from 1, in the order of the dump.
    ensures numbered { IfOk result (λ rows. AreRowsOf (state_of rows.maps) rows.maps) }
    // The dump of the rows is the text, byte for byte, if the text is known.
    ensures dumped { IfOk result (λ rows.
        IfSome (texts_by (R.remaining input.old) (H.text host.now) dump.now) (λ bytes. dump_of (state_of rows.maps) ≡ bytes)) }
    // The failure is one of a dump: the dump of a well formed state, of at most 1,073,741,824 bytes, is refused only if its file can't be
    // opened or read, or memory ran out.
    ensures failure { IfErr result (λ failure. RefusesDump (texts_by (R.remaining input.old) (H.text host.now) dump.now) failure
        × TellsLack (H.lacks host.now) dump.now failure) }
    // The input is read only if the dump is `-`.
    ensures input { bytes_eq dump.now (codes "-") ≡ false → input.new ≡ input.old }
{
    if dump == "-" {
        return rows_of_dump(alloc, console, None, input);
    }
    match host.open(dump) {
        Ok(text) => rows_of_dump(alloc, console, Some(dump), text),
        Err(_) => Err(Failure::NoBatches),
    }
}

/// The rows of the new world that a task begins with: those of its dump, or none in place of the opening ones. If it isn't a dump, standard
/// error says why.
pub(crate) fn find_rows<'s, S: Streams>(
    session: &mut Session<'s, S>,
    task: Task<'_>,
) -> Result<Option<Flat>, Failure>
    // The dump that the task names may be read.
    requires read { (path : List ℕ) → ReadsFile task path → S.Host.may_read session.old.host path }
    // The rows are those of a world that the task may begin with; or a dump was to be read, and gives none.
    ensures finds { FindsRows task.entry.action (⟦<Session<'s, S> as HasRun>⟧.run session.old session.new).given result }
    ensures limit { IfOk result (λ rows. IfSome rows (λ r. r.maps.head.seq < 2 ^ 63)) }
    ensures good { IfOk result (λ rows. IfSome rows (λ r. IsGood r.maps)) }
    // The host, with its files and its ports, is as it was.
    ensures rests { session.new.host ≡ session.old.host }
    // Nothing is written to the output.
    ensures unwritten { session.new.output ≡ session.old.output }
    // Unless the task is a load, the input is as it was.
    ensures other { is_load task.entry.action ≡ false → session.new.input ≡ session.old.input }
    // Only a task whose text is `-` reads the input.
    ensures input { reads_input task.entry ≡ false → session.new.input ≡ session.old.input }
{
    let Some(dump) = dump_word(task) else {
        return Ok(None);
    };
    match read_world(
        session.alloc,
        session.console,
        dump,
        &session.host,
        &mut session.input,
    ) {
        Ok(rows) => Ok(Some(rows)),
        Err(failure) => Err(failure),
    }
}
