//! The service on a port of this machine, from binding to its last line.

ghost use Rattle.std.specs.{Prelude.{◌≡◌, ◌≢◌, IfOk, IfErr, OnOk, OnErr, string_bytes}, Io.KnownBytes.{Appends}};
ghost use Rattle.moo_http.specs.{Advanced.{AdvancesBy}, declared.service.ServiceFault.TheVariants.{OutOfMemory}};
ghost use Rattle.moo_http.specs.{Lines.{listening_line, served_line}, Connections.{WritesFront}};
ghost use Rattle.moo_http.specs.Turns.{ServesFrom, attended_between, ServesOn};

use crate::listen::{Served, serve_on};
use crate::log::Log;
use crate::ports::Ports;
use crate::serve::Means;
use moo_arrivals::Arrivals;
use moo_http_request::Routes;
use moo_store::World;
use moo_text::put_all;
use sqlite::Alter;
use std::alloc::{AllocError, Global};
use std::io::{Eprint, Write};
use std::time::Clock;

/// What a service works with: memory, and the console, whose clock it asks and on whose standard error it tells of failures.
#[derive(Drop)]
pub struct Tools<'s, C> {
    pub alloc: Global,
    pub console: &'s C,
}

/// What a service is to do: on this port, to serve so many connections, each of whose requests has so many ticks.
#[derive(Clone, Copy, Drop)]
pub struct Duty {
    pub port: u16,
    pub count: u32,
    pub ticks: u32,
}

/// Why the service ended before its last line.
#[derive(Clone, Copy, Drop)]
pub enum ServiceFault {
    /// The port can't be bound; nothing is written.
    Port,
    /// The output failed, before the first connection or after the last.
    Write,
    /// Memory ran out, before the first connection or after the last.
    OutOfMemory,
}

impl From<AllocError> for ServiceFault {
    ghost from_gives = { λ _ fault. fault ≡ OutOfMemory };

    fn from(_: AllocError) -> ServiceFault {
        ServiceFault::OutOfMemory
    }
}

/// The line that tells the port. AllocError if memory runs out.
fn listening_text(alloc: Global, port: u16) -> Result<String, AllocError>
    ensures { IfOk result (λ text. string_bytes text ≡ listening_line port) }
{
    format!(in alloc; "listening 127.0.0.1:{port}\n")
}

/// The line that tells how many connections were answered, and how many failed. AllocError if memory runs out.
fn served_text(alloc: Global, answered: u32, failed: u32) -> Result<String, AllocError>
    ensures { IfOk result (λ text. string_bytes text ≡ served_line answered failed) }
{
    format!(in alloc; "served {answered} failed {failed}\n")
}

/// Writes a text, and flushes it so that it is seen at once. Write if the output fails.
fn write_flushed<W: Write>(output: &mut W, text: &str) -> Result<(), ServiceFault>
    ensures ok { OnOk result (Appends (W.contents output.old) (W.contents output.new) text.now) }
    // At a fault the beginning of it is written.
    ensures err { OnErr result (WritesFront text.now (W.contents output.old) (W.contents output.new)) }
    // No fault is that the port can't be listened on.
    ensures fault { IfErr result (λ fault. fault ≢ ServiceFault.Port) }
{
    if put_all(output, text.as_bytes()).is_err() {
        return Err(ServiceFault::Write);
    }
    if output.flush().is_err() {
        return Err(ServiceFault::Write);
    }
    Ok(())
}

/// Writes the line that tells the port. Write if the output fails; OutOfMemory if memory runs out.
fn say_listening<W: Write>(alloc: Global, output: &mut W, port: u16) -> Result<(), ServiceFault>
    ensures ok { OnOk result (Appends (W.contents output.old) (W.contents output.new) (listening_line port)) }
    // At a fault the beginning of it is written.
    ensures err { OnErr result (WritesFront (listening_line port) (W.contents output.old) (W.contents output.new)) }
    // No fault is that the port can't be listened on.
    ensures fault { IfErr result (λ fault. fault ≢ ServiceFault.Port) }
{
    let line = listening_text(alloc, port)?;
    write_flushed(output, line.as_str())
}

/// Writes the line that tells how many connections were answered and how many failed. Write if the output fails; OutOfMemory if memory runs
/// out.
fn say_served<W: Write>(alloc: Global, output: &mut W, served: Served) -> Result<(), ServiceFault>
    ensures ok { OnOk result (Appends (W.contents output.old) (W.contents output.new) (served_line served.answered served.failed)) }
    // At a fault the beginning of it is written.
    ensures err { OnErr result (WritesFront (served_line served.answered served.failed)
        (W.contents output.old) (W.contents output.new)) }
    // No fault is that the port can't be listened on.
    ensures fault { IfErr result (λ fault. fault ≢ ServiceFault.Port) }
{
    let line = served_text(alloc, served.answered, served.failed)?;
    write_flushed(output, line.as_str())
}

/// Says that it listens on this port, serves so many connections of a source, and says how many were answered and how many failed.
///
/// The faults: Write if the output fails, and OutOfMemory, with the beginning of the two lines written: then no connection was taken, or
/// all of them were. A connection that fails isn't a fault.
pub fn serve_from<S: Alter + Drop, A: Arrivals, C: Clock + Eprint, W: Write>(
    tools: &Tools<'_, C>,
    arrivals: &mut A,
    world: &mut World<S>,
    duty: Duty,
    output: &mut W,
) -> Result<(), ServiceFault>
    // The World was led on by what the connections asked that the source handed out, and by nothing else. Each connection is written the
    // answer to what it asked (`Exchanged`): whole, if it counts as answered; else at most the beginning of it, unless the answer was lost
    // later. The two lines tell the port and how many were answered and failed; at a fault the beginning of them is written.
    ensures serves { AdvancesBy S.Store world.old world.new (λ from to.
        ServesFrom A.Arrivals A.Reader.Read A.Reader.fails A.Writer.Write result duty.port duty.count
        arrivals.old from arrivals.new to (W.contents output.old) (W.contents output.new)) }
    // No fault is that the port can't be listened on.
    ensures fault { IfErr result (λ fault. fault ≢ ServiceFault.Port) }
{
    let routes = Routes::new(tools.alloc)?;
    say_listening(tools.alloc, output, duty.port)?;
    let mut log = Log::new(tools.console);
    let means = Means {
        alloc: tools.alloc,
        routes: &routes,
        ticks: duty.ticks,
    };
    let served = serve_on(&means, arrivals, &mut log, world, duty.count);
    log.finish();
    say_served(tools.alloc, output, served)
}

/// Listens on a port, says so, serves so many connections, says how many were answered and how many failed, and stops listening. Standard
/// error has a line for each that failed and each answer of 503, at most ten in a second.
///
/// The faults: Port if the port can't be bound, and nothing is written; else those of `serve_from`.
pub fn serve_port<S: Alter + Drop, P: Ports, C: Clock + Eprint, W: Write>(
    tools: &Tools<'_, C>,
    ports: &mut P,
    world: &mut World<S>,
    duty: Duty,
    output: &mut W,
) -> Result<(), ServiceFault>
    // The World was led on by what the connections to this port asked, one after another, and by nothing else: it is the very World, unless
    // it accepted a batch of theirs or its store failed. Each connection is written the answer to what it asked (`Exchanged`): whole, if it
    // counts as answered, or if the answer was lost after that; else at most the beginning of it. A connection whose waits aren't limited
    // is neither read nor written to; any other fails without being asked only if its reader failed or memory was refused. A turn for which
    // the source hands out none counts as failed. The two lines tell the port, how many of so many connections were answered, and how many
    // failed, with those whose answers were lost; at a fault the beginning of the lines is written, and none was taken or each was. If the
    // port can't be listened on, the World and the output are as they were. No other port was listened on, and no connection is taken after
    // the last that is counted.
    ensures serves { AdvancesBy S.Store world.old world.new (λ from to. ServesOn
        (attended_between P.Source.Arrivals P.Source.Reader.Read P.Source.Reader.fails P.Source.Writer.Write P.Ports ports.old ports.new)
        result duty.port duty.count from to (W.contents output.old) (W.contents output.new)) }
{
    let Some(mut source) = ports.listen(duty.port) else {
        return Err(ServiceFault::Port);
    };
    let done = serve_from(tools, &mut source, world, duty, output);
    ports.close(source);
    done
}
