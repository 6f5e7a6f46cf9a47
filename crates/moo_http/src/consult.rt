//! Asking the World.

ghost use Rattle.std.specs.Prelude.{◌≡◌};
ghost use Rattle.moo_world.specs.Rows.{IsGood};
ghost use Rattle.moo_store.specs.{Moves.{Stands}, Moment.{Moment, state_of_moment, rows_alone}, Place.{Place, Works}};
ghost use Rattle.moo_http.specs.{Advanced.{AdvancesBy}, Answers.{MayAnswer}, Seen.{HasSeenAsked}, Settled.{lost_by, came_of}};
ghost use Rattle.moo_reasons.specs.Seen.{seen_by};

use moo_http_request::{Asked, Each, Mode, Question};
use moo_http_response::{Replies, RequestOutcome, tell};
use moo_reasons::Whys;
use moo_rows::Rows;
use moo_store::{StoreFault, World};
use moo_text::Reply;
use moo_world::{Batch, is_due};
use sqlite::Alter;
use std::alloc::Global;

/// What comes of a request, by the fault of the World: NoMemory if memory ran out, Closed if the World had failed before, else Fault.
fn outcome_of_fault(fault: StoreFault) -> RequestOutcome
    ensures { result ≡ lost_by fault }
{
    match fault {
        StoreFault::OutOfMemory => RequestOutcome::NoMemory,
        StoreFault::Closed => RequestOutcome::Closed,
        StoreFault::Store(_) | StoreFault::Damaged(_, _) | StoreFault::NewerVersion => {
            RequestOutcome::Fault
        }
    }
}

/// What comes of a batch that was run or asked, by its reply or the fault of the World.
fn outcome_of_reply(reply: Result<Reply, StoreFault>) -> RequestOutcome
    ensures { result ≡ came_of reply }
{
    match reply {
        Ok(reply) => RequestOutcome::Replied(reply),
        Err(fault) => outcome_of_fault(fault),
    }
}

/// Runs one batch, which is committed if it is accepted. Why it is refused is kept, if that is wanted.
fn run_batch<S: Alter + Drop>(
    world: &mut World<S>,
    batch: &Batch,
    whys: &mut Whys,
) -> RequestOutcome
    // Wherever the World was, what comes of it is what a run comes to there, and the World is where that leads.
    ensures moves { AdvancesBy S.Store world.old world.new (λ from to. MayAnswer from (Asked.Calls Mode.Run batch.now) result to) }
    // If it is refused its refusal is kept, and else none.
    ensures seen { HasSeenAsked world.old.rows.maps (Asked.Calls Mode.Run batch.now) result (seen_by whys.old) (seen_by whys.new) }
{
    outcome_of_reply(world.run_one(batch, whys))
}

/// Asks what one batch would come to at present. Why it would be refused is kept, if that is wanted.
fn ask_batch<S: Alter + Drop>(world: &World<S>, batch: &Batch, whys: &mut Whys) -> RequestOutcome
    ensures comes { (place : Place) → Stands S.Store world.now place →
        MayAnswer place (Asked.Calls Mode.Ask batch.now) result place }
    // If it would be refused its refusal is kept, and else none.
    ensures seen { HasSeenAsked world.now.rows.maps (Asked.Calls Mode.Ask batch.now) result (seen_by whys.old) (seen_by whys.new) }
{
    outcome_of_reply(world.ask(batch, whys))
}

/// What comes of calls that are asked each alone of a World with this number: a reply to each, or Stale if they are meant for another
/// number.
fn ask_each_at<S: Alter + Drop>(
    world: &World<S>,
    each: &Each,
    seq: u64,
    whys: &mut Whys,
) -> RequestOutcome
    ensures comes { (m : Moment) → Stands S.Store world.now (Works m) → (state_of_moment m).seq ≡ seq →
        MayAnswer (Works m) (Asked.Each each.now) result (Works m) }
    ensures seen { HasSeenAsked world.now.rows.maps (Asked.Each each.now) result (seen_by whys.old) (seen_by whys.new) }
{
    if !is_due(each.at, seq) {
        return RequestOutcome::Replied(Reply::Stale { seq });
    }
    match world.ask_each(each.batches.items(), whys) {
        Ok(replies) => RequestOutcome::Each(Replies::from_vec(replies), seq),
        Err(fault) => outcome_of_fault(fault),
    }
}

/// What comes of calls that are asked each alone. Why each would be refused is kept, if that is wanted.
fn ask_each<S: Alter + Drop>(world: &World<S>, each: &Each, whys: &mut Whys) -> RequestOutcome
    ensures comes { (place : Place) → Stands S.Store world.now place → MayAnswer place (Asked.Each each.now) result place }
    ensures seen { HasSeenAsked world.now.rows.maps (Asked.Each each.now) result (seen_by whys.old) (seen_by whys.new) }
{
    match world.seq() {
        Ok(seq) => ask_each_at(world, each, seq, whys),
        Err(fault) => outcome_of_fault(fault),
    }
}

/// What comes of a question to a World that works and has these rows. NoMemory if memory runs out.
fn ask_rows<R: Rows>(alloc: Global, rows: &R, question: Question) -> RequestOutcome
    // The rows are good: sound rows of a well formed world, and petitions as they may be beside it.
    requires { IsGood (R.held rows.now).maps }
    ensures { let place = Works (rows_alone (R.held rows.now).maps) in MayAnswer place (Asked.Question question) result place }
{
    match tell(alloc, rows, question) {
        Ok(told) => RequestOutcome::Told(told),
        Err(_) => RequestOutcome::NoMemory,
    }
}

/// What comes of a question to a World. Closed if the World has failed, NoMemory if memory runs out.
fn ask_question<S: Alter + Drop>(
    alloc: Global,
    world: &World<S>,
    question: Question,
) -> RequestOutcome
    ensures { (place : Place) → Stands S.Store world.now place → MayAnswer place (Asked.Question question) result place }
{
    match world.good_rows() {
        Some(rows) => ask_rows(alloc, rows, question),
        None => RequestOutcome::Closed,
    }
}

/// Runs or asks one batch. Why it is refused is kept, if that is wanted.
fn take_batch<S: Alter + Drop>(
    world: &mut World<S>,
    mode: Mode,
    batch: &Batch,
    whys: &mut Whys,
) -> RequestOutcome
    // Wherever the World was, what comes of it is what a run or an asking comes to there, and the World is where that leads.
    ensures moves { AdvancesBy S.Store world.old world.new (λ from to. MayAnswer from (Asked.Calls mode batch.now) result to) }
    // If it is refused its refusal is kept, and else none.
    ensures seen { HasSeenAsked world.old.rows.maps (Asked.Calls mode batch.now) result (seen_by whys.old) (seen_by whys.new) }
{
    match mode {
        Mode::Run => run_batch(world, batch, whys),
        Mode::Ask => ask_batch(world, batch, whys),
    }
}

/// Does what a request asks: runs or asks a batch, asks calls each alone, answers a question, or refuses it. Why a batch is refused, or
/// each call that is asked alone, is kept in their order if that is wanted.
pub(crate) fn consult<S: Alter + Drop>(
    alloc: Global,
    world: &mut World<S>,
    asked: &Asked,
    whys: &mut Whys,
) -> RequestOutcome
    // Wherever the World was, the outcome is what is defined there, or NoMemory, and the World is where that leads. Only a batch that is
    // run leads on: it keeps all numbers, and the cells of the rows that it leaves as they are.
    ensures moves { AdvancesBy S.Store world.old world.new (λ from to. MayAnswer from asked.now result to) }
    // Of a batch, or of each call that is asked alone, a refusal is kept if it is refused, and else none.
    ensures seen { HasSeenAsked world.old.rows.maps asked.now result (seen_by whys.old) (seen_by whys.new) }
{
    match asked {
        Asked::Refused(refused) => RequestOutcome::Refused(refused.refusal()),
        Asked::Calls(mode, batch) => take_batch(world, *mode, batch, whys),
        Asked::Each(each) => ask_each(world, each, whys),
        Asked::Question(question) => ask_question(alloc, world, *question),
    }
}
