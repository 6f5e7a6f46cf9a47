//! The task that the words of the command line name.
ghost use Rattle.std.specs.Prelude.{◌≡◌, ◌<◌, ◌^◌, true, List, Some, map, IfOk, IfErr, IsErr, is_some, option_map, codes, length};
ghost use Rattle.clap.specs.{Simple.{subcommand_rows_of}, Walk.{Row, Text, first_of, rows_of}, Matches.{found_of}};
ghost use Rattle.moo_cli.specs.Tasks.{HasNumber, is_set, AreBatches, HasNumberOr, IsService, HasArguments, IsTask, IsAny, IsRefusal};
ghost use Rattle.moo_cli.specs.Tasks.{NamesTask, NamesAlone, command_of, text_word};

use crate::commands::moo_command;
use clap::{ArgMatches, Error};
use std::alloc::{AllocError, Global};

/// What the program is to do, and on which file: the path of a database, or `:memory:` for a new world.
#[derive(Clone, Copy, Drop)]
pub struct Task<'a> {
    pub file: &'a str,
    /// What is done with that file.
    pub action: Action<'a>,
}

/// What a command does with its file.
///
/// `batches` of `Ask` is the path of a text of batches, and `dump` that of a dump; `-` is standard input.
#[derive(Clone, Copy, Drop)]
pub enum Action<'a> {
    /// Make a new world.
    Init,
    /// Run the batches of a text.
    Apply(Batches<'a>),
    /// Say what running the batches of a text would answer.
    Rehearse(Batches<'a>),
    /// Say what each batch of a text would answer at present.
    Ask { batches: &'a str },
    /// Print the whole world.
    Dump,
    /// Make the world of a dump.
    Load { dump: &'a str },
    /// Test that the file holds a whole world.
    Check,
    /// Answer requests.
    Serve(Service),
}

/// Which batches are run: those of a text, whose path this is, or of standard input for `-`; and how.
#[derive(Clone, Copy, Drop)]
pub struct Batches<'a> {
    pub path: &'a str,
    pub options: Options,
}

/// How batches are run: whether they stop after the first reply that isn't `accepted`.
#[derive(Clone, Copy, Drop)]
pub struct Options {
    pub stop: bool,
}

/// How `serve` answers: on this port of 127.0.0.1, 1 to 65535, and it ends after so many connections, 0 to 1,000,000, or 4,294,967,295 if
/// no number is given. Each request has so many ticks, 1,000 to 4,294,967,295, or 4,000,000 if no number is given.
#[derive(Clone, Copy, Drop)]
pub struct Service {
    pub port: u16,
    pub count: u32,
    pub ticks: u32,
}

/// Why the words name no task.
#[derive(Drop)]
pub enum Usage {
    /// They aren't those of a command, or they ask for help or the version; the error has the text to show. If memory runs
    /// out, that is such an error too.
    Refused(Error),
    /// They have no mistake by `clap`'s rules, and yet name no task.
    Absent,
}

/// How many connections are served at most, if a number is given.
const MOST_CONNECTIONS: u32 = 1_000_000;

/// How many connections are served if no number is given.
const ENDLESS: u32 = 4_294_967_295;

/// How many ticks a request has at least.
const LEAST_TICKS: u32 = 1000;

/// How many ticks a request has at most.
const MOST_TICKS: u32 = 4_294_967_295;

/// How many ticks a request has if no number is given.
const TICKS: u32 = 4_000_000;

/// The text of the argument with this name. None if it isn't given.
fn text_of<'a>(matches: &ArgMatches<'a>, id: &str) -> Option<&'a str>
    ensures { option_map (λ text. text.now) result ≡ first_of id.now (rows_of (found_of matches.now)) }
{
    matches.get_str(id)
}

/// Whether the flag with this name is given.
fn flag_of(matches: &ArgMatches<'_>, id: &str) -> bool
    ensures { result ≡ is_set id.now (rows_of (found_of matches.now)) }
{
    match matches.get_str(id) {
        Some(text) => text == "true",
        None => false,
    }
}

/// The number that the argument with this name is, 0 to 4,294,967,295. None if it isn't given, or isn't such a number.
fn number_of(matches: &ArgMatches<'_>, id: &str) -> Option<u32>
    ensures { IsAny (λ n. HasNumber (rows_of (found_of matches.now)) id.now n × (n < 2 ^ 32)) result }
{
    matches.get_one::<u32>(id)
}

/// The number that the argument with this name is, or `absent` if it isn't given. None if it isn't a number from `least` to `most`.
fn number_or(matches: &ArgMatches<'_>, id: &str, least: u32, most: u32, absent: u32) -> Option<u32>
    ensures { IsAny (HasNumberOr (rows_of (found_of matches.now)) id.now least most absent) result }
{
    match matches.get_str(id) {
        None => Some(absent),
        Some(_text) => {
            let number = number_of(matches, id)?;
            if number < least || most < number {
                return None;
            }
            Some(number)
        }
    }
}

/// How `serve` is to answer: its port, how many connections it serves, and how many ticks a request has. None if one of them isn't within
/// its bounds, or no port is given.
fn service_in(matches: &ArgMatches<'_>) -> Option<Service>
    ensures { IsAny (IsService (rows_of (found_of matches.now))) result }
{
    let port = number_of(matches, "PORT")?;
    let count = number_or(matches, "COUNT", 0, MOST_CONNECTIONS, ENDLESS)?;
    let ticks = number_or(matches, "ticks", LEAST_TICKS, MOST_TICKS, TICKS)?;
    if port == 0 || port > 65535 {
        return None;
    }
    Some(Service {
        port: port as u16,
        count,
        ticks,
    })
}

/// How a command is to run its batches: whether `--stop` is given.
fn options_in(matches: &ArgMatches<'_>) -> Options
    ensures { result.stop ≡ is_set (codes "stop") (rows_of (found_of matches.now)) }
{
    Options {
        stop: flag_of(matches, "stop"),
    }
}

/// Which batches a command is to run, and how. None if no text of batches is named.
fn batches_in<'a>(matches: &ArgMatches<'a>) -> Option<Batches<'a>>
    ensures { IsAny (AreBatches (rows_of (found_of matches.now))) result }
{
    let path = text_of(matches, "BATCHES")?;
    let options = options_in(matches);
    Some(Batches { path, options })
}

/// The action of a command that reads a text of batches or a dump. None if the name is that of another command, or no text is named.
fn text_action_in<'a>(name: &str, matches: &ArgMatches<'a>) -> Option<Action<'a>>
    // The action reads a text, and is that of the command's name and arguments. None only if there is no such action.
    ensures { IsAny (λ action. (name.now ≡ command_of action) × HasArguments (rows_of (found_of matches.now)) action
        × (is_some (text_word action) ≡ true)) result }
{
    if name == "apply" {
        let batches = batches_in(matches)?;
        Some(Action::Apply(batches))
    } else if name == "rehearse" {
        let batches = batches_in(matches)?;
        Some(Action::Rehearse(batches))
    } else if name == "ask" {
        let batches = text_of(matches, "BATCHES")?;
        Some(Action::Ask { batches })
    } else if name == "load" {
        let dump = text_of(matches, "DUMP")?;
        Some(Action::Load { dump })
    } else {
        None
    }
}

/// The action of a command, by its name and its arguments. None if the program has no such command, or an argument is missing, or isn't a
/// number within its bounds.
fn action_in<'a>(name: &str, matches: &ArgMatches<'a>) -> Option<Action<'a>>
    ensures { IsAny (λ action. (name.now ≡ command_of action) × HasArguments (rows_of (found_of matches.now)) action) result }
{
    if name == "init" {
        Some(Action::Init)
    } else if name == "dump" {
        Some(Action::Dump)
    } else if name == "check" {
        Some(Action::Check)
    } else if name == "serve" {
        let service = service_in(matches)?;
        Some(Action::Serve(service))
    } else {
        text_action_in(name, matches)
    }
}

/// The task that the command and its arguments are. None if no command is named, or an argument is missing, or isn't within its bounds.
fn task_in<'a>(matches: &ArgMatches<'a>) -> Option<Task<'a>>
    ensures { IsAny (λ task. (found : Text × List Row) × (subcommand_rows_of matches.now ≡ Some found) × IsTask found task) result }
{
    let (name, matches) = matches.subcommand()?;
    let file = text_of(matches, "FILE")?;
    let action = action_in(name, matches)?;
    Some(Task { file, action })
}

/// The task that the words name, the first of which is the program's own name.
///
/// With no other word it is `apply :memory: -`. Refused if `clap` refuses the words, as it does if they ask for help or the version,
/// or if memory runs out. Absent if it takes them and they name no task. So words that name a task are refused only if memory runs out.
pub fn read_words<'a>(alloc: Global, words: &'a [&'a str]) -> Result<Task<'a>, Usage>
    // The task is one that the words name.
    ensures task { IfOk result (NamesTask (map (λ word. word.now) words.entry.now)) }
    // No other task is named by these words.
    ensures alone { IfOk result (NamesAlone (map (λ word. word.now) words.entry.now)) }
    // The words have the mistake that the error tells, or memory ran out; or they have none and name no task.
    ensures refused { IfErr result (IsRefusal (map (λ word. word.now) words.entry.now)) }
    // The program's name alone is never refused.
    ensures more { IsErr result → 1 < length words.entry.now }
{
    if words.len() <= 1 {
        return Ok(Task {
            file: ":memory:",
            action: Action::Apply(Batches {
                path: "-",
                options: Options { stop: false },
            }),
        });
    }
    let command = match moo_command(alloc) {
        Ok(command) => command,
        Err(error) => return Err(Usage::Refused(Error::from(error))),
    };
    let matches = match command.try_get_matches_from(words) {
        Ok(matches) => matches,
        Err(error) => return Err(Usage::Refused(error)),
    };
    match task_in(&matches) {
        Some(task) => Ok(task),
        None => Err(Usage::Absent),
    }
}
