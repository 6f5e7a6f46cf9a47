//! The program over the words of the command line and the standard streams.

ghost use Rattle.std.specs.{Prelude.{◌≡◌, ◌≢◌, ◌⊎◌, ◌∷◌, ℕ, List, codes, map, drop, string_bytes, IfOk, IfErr}, IoError.{error_kind}};
ghost use Rattle.moo_run_lines.specs.Lines.{Reports};
ghost use Rattle.sqlite.specs.WalFiles.{image_at};
ghost use Rattle.moo_cli.specs.{declared.task.Task.{Task}, Tasks.{NamesTask}};
ghost use Rattle.moo_run.specs.{Run.{ReadsFile, KeepsInput}, Ends.{IsUntouched, RunsClosed}};

use crate::host::System;
use moo_files::{Remains, WorldFiles};
use moo_progress::DiskChanges;
use moo_run::{HasRun, Session, Streams, run_to_end};
use moo_run_lines::{Failure, report};
use sqlite::Unknown;
use std::alloc::{AllocError, Global};
use std::env::args;
use std::io;
use std::io::{Eprint, ErrorKind, Stdin, Stdout, Write};
use std::marker::PhantomData;

/// The words of a command line, with `moo` in place of the program's path, or alone if there are none. An error if memory runs out.
fn named_words(alloc: Global, mut words: Vec<String>) -> io::Result<Vec<String>>
    ensures { IfOk result (λ named. map string_bytes named.items ≡ codes "moo" ∷ map string_bytes (drop 1 words.items)) }
{
    let name = String::from_str(alloc, "moo")?;
    if words.is_empty() {
        words.push(name)?;
    } else {
        words[0] = name;
    }
    Ok(words)
}

/// A list of the words as they are read. AllocError if memory runs out.
fn borrow_words<'a>(alloc: Global, words: &'a [String]) -> Result<Vec<&'a str>, AllocError>
    ensures { IfOk result (λ found. map (λ word. word.now) found.items ≡ map string_bytes words.now) }
{
    let mut found = Vec::with_capacity(alloc, words.len())?;
    for word in words {
        found.push(word.as_str())?;
    }
    Ok(found)
}

/// The failure of a run whose words can't be read: OutOfMemory if memory ran out, else Usage, as one of them isn't UTF-8.
fn words_failure(error: &io::Error) -> Failure
    ensures memory { error_kind error.now ≡ ErrorKind.OutOfMemory → result ≡ Failure.OutOfMemory }
    ensures other { error_kind error.now ≢ ErrorKind.OutOfMemory → result ≡ Failure.Usage }
{
    match error.kind() {
        ErrorKind::OutOfMemory => Failure::OutOfMemory,
        _ => Failure::Usage,
    }
}

/// Does what the words say and closes their file, or says why the words can't be read. It sets the exit status, and hands back what remains
/// of the file, to be dropped. If no file was opened, that is `start`.
pub fn run_given<'s, S: Streams>(
    session: &mut Session<'s, S>,
    words: io::Result<Vec<String>>,
    start: S::File,
) -> Remains<S::File, <S::Host as WorldFiles<S::File>>::Disk>
    // The file of a world that the words name may be looked at and opened.
    requires may { IfOk words (λ words. (task : Task) → NamesTask (map string_bytes words.items) task →
        S.Host.may_open session.old.host task.file.now) }
    // The file of batches or the dump that they name may be read.
    requires read { IfOk words (λ words. (task : Task) (path : List ℕ) → NamesTask (map string_bytes words.items) task →
        ReadsFile task path → S.Host.may_read session.old.host path) }
    // The outcome of the words is that of `run_to_end`; or memory runs out before that, and their file isn't opened.
    ensures read { IfOk words (λ words. let run = ⟦<Session<'s, S> as HasRun>⟧.run session.old session.new in
        (Reports Failure.OutOfMemory run.before run.after run.status × IsUntouched result × run.given.ports.rests)
        ⊎ RunsClosed (map string_bytes words.items) (image_at S.File.Start) result run) }
    // The input stays, but for words of a task that reads it.
    ensures input { IfOk words (λ words. KeepsInput (map string_bytes words.items) session.old.input session.new.input) }
    // If memory runs out while the words are read, the line says so.
    ensures memory { IfErr words (λ error. error_kind error ≡ ErrorKind.OutOfMemory →
        Reports Failure.OutOfMemory (S.Output.contents session.old.output) (S.Output.contents session.new.output) session.new.status) }
    // If the words can't be read for another cause, the line is that of a mistake in them.
    ensures unread { IfErr words (λ error. error_kind error ≢ ErrorKind.OutOfMemory →
        Reports Failure.Usage (S.Output.contents session.old.output) (S.Output.contents session.new.output) session.new.status) }
    // In both cases no file is opened, and nothing is asked of the host or read from the input.
    ensures unopened { IfErr words (λ _.
        IsUntouched result × (session.new.host ≡ session.old.host) × (session.new.input ≡ session.old.input)) }
{
    let words = match words {
        Ok(words) => words,
        Err(error) => {
            session.status = report(
                session.alloc,
                session.console,
                words_failure(&error),
                &mut session.output,
            );
            return Remains::Untouched(start);
        }
    };
    let Ok(words) = borrow_words(session.alloc, &words) else {
        session.status = report(
            session.alloc,
            session.console,
            Failure::OutOfMemory,
            &mut session.output,
        );
        return Remains::Untouched(start);
    };
    run_to_end(session, &words, start)
}

/// The words of the command line, with `moo` first. An error if one isn't UTF-8, or memory runs out.
fn command_words(rt: &HostRuntime) -> io::Result<Vec<String>> {
    named_words(rt.alloc(), args(rt)?.collect(rt.alloc())?)
}

/// What the program works with: the files and ports of the system, and the standard streams.
pub struct Standard<'a> {
    of: PhantomData<&'a HostRuntime>,
}

impl<'a> Streams for Standard<'a> {
    type File = Unknown;

    type Host = System<'a>;

    type Console = HostRuntime;

    type Input = Stdin;

    type Output = Stdout;
}

/// The whole program: `run_given` over the words of the command line, the files and ports of the system and the standard streams. It has no
/// type parameter, so that the check of `main` needn't know what streams are. It answers the exit status.
pub fn run_command(rt: &HostRuntime) -> u8 {
    let changes = DiskChanges::new();
    let mut session: Session<'_, Standard<'_>> = Session {
        alloc: rt.alloc(),
        console: rt,
        host: System::new(rt, &changes),
        input: rt.stdin(),
        output: rt.stdout(),
        status: 0,
    };
    let left = run_given(&mut session, command_words(rt), Unknown);
    left.shut();
    session.status
}
