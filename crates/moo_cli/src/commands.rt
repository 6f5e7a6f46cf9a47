//! The commands of the program.
ghost use Rattle.std.specs.Prelude.{◌≡◌, true, false, codes, Some, IfOk};
ghost use Rattle.clap.specs.{Walk.{rule_of}, Simple.{App, app_of, new_app, new_rule, on_top, with_rule, with_subcommand}};
ghost use Rattle.clap.specs.declared.builder.action.ArgAction.TheVariants.{SetTrue};
ghost use Rattle.clap.specs.declared.builder.command.Command.TheViews.{out-Command as fields_of};
ghost use Rattle.moo_cli.specs.Commands.{text_rule, number_rule, file_app, batches_app, running_app, serve_app, moo_app};

use crate::help;
use clap::{Arg, ArgAction, Command, value_parser};
use std::alloc::{AllocError, Global};

/// An argument that must be there, and is a text.
fn text_arg<'a>(alloc: Global, id: &'a str, about: &'a str) -> Arg<'a>
    ensures rule { rule_of result ≡ text_rule id.entry.now }
    // It is an argument of its command alone, and not of the commands below that.
    ensures local { result.global ≡ false }
{
    Arg::new(alloc, id).required(true).help(about)
}

/// An argument that is a flag, written `--` and its name: it is given or it isn't.
fn flag_arg<'a>(alloc: Global, name: &'a str, about: &'a str) -> Arg<'a>
    ensures rule { rule_of result ≡ record (new_rule name.entry.now) { long = Some name.entry.now; action = Some SetTrue } }
    // It is an argument of its command alone, and not of the commands below that.
    ensures local { result.global ≡ false }
{
    Arg::new(alloc, name)
        .long(name)
        .action(ArgAction::SetTrue)
        .help(about)
}

/// The argument PORT of `serve`: a number from 1 to 65,535, which must be there.
fn port_arg<'a>(alloc: Global) -> Arg<'a>
    ensures rule { rule_of result ≡ record (number_rule (codes "PORT") 1 65535) { required = true } }
    // It is an argument of its command alone, and not of the commands below that.
    ensures local { result.global ≡ false }
{
    Arg::new(alloc, "PORT")
        .required(true)
        .value_parser(value_parser!(u16).range(1..=65535))
        .help(help::PORT)
}

/// The argument COUNT of `serve`: a number from 0 to 1,000,000, which may be left out.
fn count_arg<'a>(alloc: Global) -> Arg<'a>
    ensures rule { rule_of result ≡ number_rule (codes "COUNT") 0 1000000 }
    // It is an argument of its command alone, and not of the commands below that.
    ensures local { result.global ≡ false }
{
    Arg::new(alloc, "COUNT")
        .value_parser(value_parser!(u32).range(0..=1_000_000))
        .help(help::COUNT)
}

/// The option `--ticks` of `serve`: a number from 1,000 to 4,294,967,295, which may be left out.
fn ticks_arg<'a>(alloc: Global) -> Arg<'a>
    ensures rule { rule_of result ≡ record (number_rule (codes "ticks") 1000 4294967295) { long = Some (codes "ticks") } }
    // It is an argument of its command alone, and not of the commands below that.
    ensures local { result.global ≡ false }
{
    Arg::new(alloc, "ticks")
        .long("ticks")
        .value_parser(value_parser!(u32).range(1000..=4_294_967_295))
        .help(help::TICKS)
}

/// A command with what help says of it and no arguments yet.
fn new_command<'a>(alloc: Global, name: &'a str, about: &'a str, more: &'a str) -> Command<'a>
    ensures shape { app_of result ≡ new_app name.entry.now }
    // No argument of it is one of the commands below it too.
    ensures local { (fields_of result).has_globals ≡ false }
{
    Command::new(alloc, name).about(about).after_help(more)
}

/// A command of a file. AllocError if memory runs out.
fn file_command<'a>(
    alloc: Global,
    name: &'a str,
    about: &'a str,
    more: &'a str,
) -> Result<Command<'a>, AllocError>
    ensures shape { IfOk result (λ command. app_of command ≡ file_app name.entry.now) }
    // No argument of it is one of the commands below it too.
    ensures local { IfOk result (λ command. (fields_of command).has_globals ≡ false) }
{
    new_command(alloc, name, about, more).arg(text_arg(alloc, "FILE", help::FILE))
}

/// A command of a file and one more text, an argument of this name. AllocError if memory runs out.
fn text_command<'a>(
    alloc: Global,
    name: &'a str,
    about: &'a str,
    more: &'a str,
    id: &'a str,
    text: &'a str,
) -> Result<Command<'a>, AllocError>
    ensures shape { IfOk result (λ command. app_of command ≡ with_rule (file_app name.entry.now) (text_rule id.entry.now)) }
    // No argument of it is one of the commands below it too.
    ensures local { IfOk result (λ command. (fields_of command).has_globals ≡ false) }
{
    file_command(alloc, name, about, more)?.arg(text_arg(alloc, id, text))
}

/// A command of a file and batches. AllocError if memory runs out.
fn batches_command<'a>(
    alloc: Global,
    name: &'a str,
    about: &'a str,
    more: &'a str,
) -> Result<Command<'a>, AllocError>
    ensures shape { IfOk result (λ command. app_of command ≡ batches_app name.entry.now) }
    // No argument of it is one of the commands below it too.
    ensures local { IfOk result (λ command. (fields_of command).has_globals ≡ false) }
{
    text_command(alloc, name, about, more, "BATCHES", help::BATCHES)
}

/// A command of a file and batches that may stop. AllocError if memory runs out.
fn running_command<'a>(
    alloc: Global,
    name: &'a str,
    about: &'a str,
    more: &'a str,
) -> Result<Command<'a>, AllocError>
    ensures shape { IfOk result (λ command. app_of command ≡ running_app name.entry.now) }
    // No argument of it is one of the commands below it too.
    ensures local { IfOk result (λ command. (fields_of command).has_globals ≡ false) }
{
    batches_command(alloc, name, about, more)?.arg(flag_arg(alloc, "stop", help::STOP))
}

/// The command `load`, of a file and a dump. AllocError if memory runs out.
fn load_command<'a>(alloc: Global) -> Result<Command<'a>, AllocError>
    ensures shape { IfOk result (λ command. app_of command ≡ with_rule (file_app (codes "load")) (text_rule (codes "DUMP"))) }
    // No argument of it is one of the commands below it too.
    ensures local { IfOk result (λ command. (fields_of command).has_globals ≡ false) }
{
    text_command(
        alloc,
        "load",
        help::LOAD,
        help::LOAD_MORE,
        "DUMP",
        help::DUMP_FILE,
    )
}

/// The command `serve`, of a file, a port, how many connections it serves, and how many ticks a request has. AllocError if memory runs out.
fn serve_command<'a>(alloc: Global) -> Result<Command<'a>, AllocError>
    ensures shape { IfOk result (λ command. app_of command ≡ serve_app) }
    // No argument of it is one of the commands below it too.
    ensures local { IfOk result (λ command. (fields_of command).has_globals ≡ false) }
{
    file_command(alloc, "serve", help::SERVE, help::SERVE_MORE)?
        .arg(port_arg(alloc))?
        .arg(count_arg(alloc))?
        .arg(ticks_arg(alloc))
}

/// A program with one more command. AllocError if memory ran out for either, or runs out.
fn with_command<'a>(
    program: Result<Command<'a>, AllocError>,
    command: Result<Command<'a>, AllocError>,
) -> Result<Command<'a>, AllocError>
    // No argument of the command is one of the commands below it too.
    requires { IfOk command (λ command. (fields_of command).has_globals ≡ false) }
    // The commands of the new program are those of the old one, and then this command.
    ensures { (old added : App) → IfOk program.entry (λ program. app_of program ≡ old)
        → IfOk command.entry (λ command. app_of command ≡ added) → IfOk result (λ new. app_of new ≡ with_subcommand old added.top) }
{
    program?.subcommand(command?)
}

/// The program without its commands.
fn program<'a>(alloc: Global) -> Command<'a>
    ensures { app_of result ≡ on_top (λ s. record s { has_version = true; subcommand_required = true }) (new_app (codes "moo")) }
{
    new_command(alloc, "moo", help::MOO, help::MOO_MORE)
        .version(help::VERSION)
        .subcommand_required(true)
}

/// The program with all its commands. AllocError if memory runs out.
pub(crate) fn moo_command<'a>(alloc: Global) -> Result<Command<'a>, AllocError>
    ensures { IfOk result (λ command. app_of command ≡ moo_app) }
{
    let command = file_command(alloc, "init", help::INIT, help::INIT_MORE);
    let program = with_command(Ok(program(alloc)), command);
    let command = running_command(alloc, "apply", help::APPLY, help::APPLY_MORE);
    let program = with_command(program, command);
    let command = running_command(alloc, "rehearse", help::REHEARSE, help::REHEARSE_MORE);
    let program = with_command(program, command);
    let command = batches_command(alloc, "ask", help::ASK, help::ASK_MORE);
    let program = with_command(program, command);
    let command = file_command(alloc, "dump", help::DUMP, help::DUMP_MORE);
    let program = with_command(program, command);
    let program = with_command(program, load_command(alloc));
    let command = file_command(alloc, "check", help::CHECK, help::CHECK_MORE);
    let program = with_command(program, command);
    with_command(program, serve_command(alloc))
}
