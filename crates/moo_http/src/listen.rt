//! The connections of a source, served one after another.

ghost use Rattle.std.specs.Prelude.{◌≡◌, ◌⊎◌, ◌+◌, ◌^◌, ◌<◌, ℕ, true, false};
ghost use Rattle.moo_http_request.specs.Given.{HasFailed};
ghost use Rattle.moo_http.specs.{Advanced.{AdvancesBy}, Traffic.{traffic_of}, Serves.{ClosesGently}};
ghost use Rattle.moo_http.specs.{Turns.{Visited, Visit, Attended, AttendsAll}, Settling.{TellsLoss, TellsLosses, HasNoneLeft}};

use crate::log::Log;
use crate::note::{Note, Trouble};
use crate::serve::{Means, serve_one};
use moo_arrivals::{Arrivals, Connection};
use moo_http_request::Incoming;
use moo_store::World;
use sqlite::Alter;
use std::io::{Eprint, Write};
use std::time::Clock;

/// How many connections were answered, and how many failed.
#[derive(Clone, Copy, Drop)]
pub struct Served {
    pub answered: u32,
    pub failed: u32,
}

/// Serves a connection; whether it was answered. If its waits aren't limited, nothing is read and nothing is written.
pub fn serve_connection<S: Alter + Drop, R: Incoming, W: Write>(
    means: &Means<'_>,
    connection: &mut Connection<R, W>,
    world: &mut World<S>,
    note: &mut Note,
) -> bool
    // Wherever the World was: the connection is answered, and all of its answer is written; or it met a fault of `serve_one`, which says
    // what was written of the answer. Only a batch that it asked to run led the World on.
    ensures visited { AdvancesBy S.Store world.old world.new (λ from to.
        Visited (HasFailed R.fails connection.new.reader ⊎ (connection.old.is_limited ≡ false)) result from to
        (traffic_of R.Read W.Write connection.old connection.new)) }
    // A connection whose waits aren't limited isn't read, nothing is written to it, and the World isn't asked.
    ensures unlimited { connection.old.is_limited ≡ false →
        (result ≡ false) × (world.new ≡ world.old) × (connection.new ≡ connection.old) }
    // If it was answered, and its request is refused before the World is asked, the note says that it is to be closed gently.
    ensures gentle { result ≡ true →
        ClosesGently (R.remaining connection.old.reader) (R.remaining connection.new.reader) note.new.closing }
{
    let is_limited = connection.is_limited;
    if !is_limited {
        note.fails(Trouble::NotLimited);
        return false;
    }
    let served = serve_one(
        means,
        &mut connection.reader,
        &mut connection.writer,
        world,
        note,
    );
    note.ends(served)
}

/// Takes the next connection of a source, serves it, and gives it back to be closed; whether it was answered. `left` connections are
/// still to come, this one among them. If none can be taken the note says so, and nothing is done.
pub fn serve_next<S: Alter + Drop, A: Arrivals>(
    means: &Means<'_>,
    arrivals: &mut A,
    left: u32,
    world: &mut World<S>,
    note: &mut Note,
) -> bool
    // The source hands out one connection, which is served and taken back; or it hands out none, and the World isn't asked.
    ensures turn { AdvancesBy S.Store world.old world.new (λ from to.
        Visit A.Arrivals A.Reader.Read A.Reader.fails A.Writer.Write result arrivals.old from arrivals.new to) }
{
    let Some(mut connection) = arrivals.accept(means.routes, left) else {
        note.fails(Trouble::NotTaken);
        return false;
    };
    note.cause = connection.cause;
    let is_answered = serve_connection(means, &mut connection, world, note);
    arrivals.close(connection, note.closing, note.route);
    is_answered
}

/// Asks a source once for a connection whose answer was lost after its turn; whether there was one, which counts as failed, and of which
/// the log is told. If none counts as answered none can be lost, and the source isn't asked.
fn settle_one<'a, A: Arrivals, C: Clock + Eprint>(
    arrivals: &mut A,
    log: &mut Log<'a, C>,
    served: &mut Served,
    is_last: bool,
) -> bool
    requires { served.old.answered + served.old.failed < 2 ^ 32 }
    // A connection of which the source tells counts as failed, and no more as answered. Else the counts stay.
    ensures tells { TellsLoss A.loses arrivals.old served.old.answered served.old.failed
        arrivals.new served.new.answered served.new.failed }
    ensures more { result ≡ true → served.new.answered + 1 ≡ served.old.answered }
    // None is left to be told of: none counts as answered, or the source told of none.
    ensures none { result ≡ false → HasNoneLeft A.loses served.new.answered arrivals.new }
{
    if served.answered == 0 {
        return false;
    }
    let Some(loss) = arrivals.settle(is_last) else {
        return false;
    };
    served.answered -= 1;
    served.failed += 1;
    log.tell(Note::of_loss(loss));
    true
}

/// Asks a source for all connections whose answers were lost after their turns, once each answer is sent or lost. Each has failed, and the
/// log is told.
fn settle_rest<'a, A: Arrivals, C: Clock + Eprint>(
    arrivals: &mut A,
    log: &mut Log<'a, C>,
    served: &mut Served,
)
    requires { served.old.answered + served.old.failed < 2 ^ 32 }
    // Each connection of which the source tells counts as failed, and no more as answered.
    ensures tells { (asked : ℕ) × TellsLosses A.loses asked arrivals.old served.old.answered served.old.failed
        arrivals.new served.new.answered served.new.failed }
    // None is left to be told of: none counts as answered, or the source told of none.
    ensures none { HasNoneLeft A.loses served.new.answered arrivals.new }
{
    for _ in 0..served.answered {
        if !settle_one(arrivals, log, served, true) {
            return;
        }
    }
}

/// Serves this many connections of a source, one after another, and asks after each for one whose answer was lost.
fn serve_each<'a, S: Alter + Drop, A: Arrivals, C: Clock + Eprint>(
    means: &Means<'_>,
    arrivals: &mut A,
    log: &mut Log<'a, C>,
    world: &mut World<S>,
    count: u32,
) -> Served
    ensures count { result.answered + result.failed ≡ count }
    // The World was led on by what the connections asked, in their order, and by nothing else. So many were answered, and so many failed.
    // Each connection is written the answer to what it asked (`Exchanged`): whole, if it counts as answered; else at most the beginning of
    // it, unless the answer was lost later.
    ensures serves { AdvancesBy S.Store world.old world.new (λ from to. Attended A.Arrivals A.Reader.Read A.Reader.fails
        A.Writer.Write result.answered result.failed arrivals.old from arrivals.new to) }
{
    let mut served = Served {
        answered: 0,
        failed: 0,
    };
    for turn in 0..count {
        let mut note = Note::new();
        if serve_next(means, arrivals, count - turn, world, &mut note) {
            served.answered += 1;
        } else {
            served.failed += 1;
        }
        log.tell(note);
        let _more = settle_one(arrivals, log, &mut served, false);
    }
    served
}

/// Serves this many connections of a source, one after another: how many were answered, and how many failed, since they couldn't be
/// taken, their waits had no limit, `serve_one` met a fault, or the answer was lost after that. A failure doesn't stop the next one. The
/// log is told of each.
pub fn serve_on<'a, S: Alter + Drop, A: Arrivals, C: Clock + Eprint>(
    means: &Means<'_>,
    arrivals: &mut A,
    log: &mut Log<'a, C>,
    world: &mut World<S>,
    count: u32,
) -> Served
    // Each connection is counted, as answered or as failed.
    ensures count { result.answered + result.failed ≡ count }
    // The World was led on by what the connections asked that the source handed out, in their order, and by nothing else. So many of them
    // were answered, and so many failed. Only batches that were run wrote to the tables: each keeps all numbers, and the cells of what
    // stays. At last the source told of no lost answer, unless none counts as answered.
    ensures serves { AdvancesBy S.Store world.old world.new (λ from to. AttendsAll A.Arrivals A.Reader.Read A.Reader.fails
        A.Writer.Write result.answered result.failed arrivals.old from arrivals.new to) }
{
    let mut served = serve_each(means, arrivals, log, world, count);
    settle_rest(arrivals, log, &mut served);
    served
}
