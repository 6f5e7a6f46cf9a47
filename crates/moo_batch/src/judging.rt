//! What a batch comes to.

ghost use Rattle.std.specs.Prelude.{◌≡◌, ◌+◌, ◌<◌, ◌≤◌, ℕ, Option, Some, true, false, length, OnOk, IfSome, IfErr};
ghost use Rattle.moo_batch.specs.{declared.witness.Facts.{Facts}, declared.witness.Refusal.{Refusal}};
ghost use Rattle.moo_batch.specs.{Outcomes.{state_in, KeepsGoodRows, Reaches, StaysAtCheck}, Ticks.{TakesOne, TakesTicks}};
ghost use Rattle.moo_batch.specs.{Judge.{ComeTo, HaveKept, IsGoodAt, IsVerdict, StandsAtCheck}, Facts.{AreFacts}, Seeing.{HasSeen}};
ghost use Rattle.moo_world.specs.{declared.call.TheConstants.{MOST_CALLS}, Reasons.{error_of}, Rows.{IsGood, world_of}};
ghost use Rattle.moo_world.specs.{Between.{CallKeepsNumbers}, Judge.{run_calls}, Names.{is_grant}, Requests.{batch_call}};
ghost use Rattle.moo_rows.specs.Maps.{Maps};
ghost use Rattle.moo_memory.specs.Changes.{AreChanges};

use crate::charging::ticks_of;
use crate::facts::show_refusal;
use crate::stepping::step;
use crate::witness::{Refusal, Witness};
use moo_calls_shared::Fault;
use moo_memory::{ChangeList, Changes, Draft, ENDLESS};
use moo_rows::{Head, Rows};
use moo_value::{Code, ObjNo, Value};
use moo_world::{Answers, Batch, Call, LAST_SEQ, is_due};
use std::alloc::Global;

/// The call at which a batch stopped, numbered from 1, and why.
#[derive(Clone, Copy)]
enum Stop {
    /// A check of the call failed.
    Refused(Refusal),
    /// No number is left for what the call makes.
    Full { call: u32 },
    /// Memory ran out, or ticks were spent.
    OutOfMemory { call: u32 },
}

/// What a batch comes to. Only an accepted batch changes anything.
#[derive(Drop)]
pub enum Verdict {
    /// Every call was done: their answers in order, and the changes that make the rows into the next ones.
    Accepted { answers: Answers, changes: Changes },
    /// The first call that failed, numbered from 1, and its error.
    Refused { call: u32, code: Code },
    /// No number is left for what this call makes; call 0 is the batch itself, after [`LAST_SEQ`] accepted ones.
    Full { call: u32 },
    /// The batch names another number of accepted batches than the present one, which is `seq`.
    Stale { seq: u64 },
    /// The batch has calls, and memory ran out or ticks were spent; nothing changed.
    OutOfMemory,
}

/// Makes one call of a batch, on rows whose ticks aren't spent. The errors are those of `step`.
fn step_on<R: Rows>(
    rows: &mut R,
    alloc: Global,
    programmer: ObjNo,
    call: &Call,
) -> Result<Value, Fault>
    // The rows are good: sound rows of a well formed world, and petitions as they may be beside it.
    requires good { IsGood (R.held rows.old).maps }
    // The rows haven't said that their ticks are spent.
    requires leave { (R.held rows.old).base.is_spent ≡ false }
    // The answer and the rows, or the error, are those of the call in the model; or memory ran out.
    ensures reaches { Reaches (batch_call (state_in (R.held rows.old)) programmer call.now) (R.held rows.new) result }
    // If a check of the call itself fails, the rows are as they were.
    ensures check { IfErr result (StaysAtCheck (R.held rows.old) (R.held rows.new)) }
    // If it is done, the rows are good ones, no batch is counted yet, and what stays keeps its number.
    ensures kept { OnOk result (KeepsGoodRows (CallKeepsNumbers (is_grant call.now.name) programmer call.now.args) (R.held rows.old)
        (R.held rows.new)) }
{
    step(rows, alloc, programmer, call)
}

/// Takes the ticks that an answer costs from those of the rows, and says whether one more call may be made: ticks are left.
fn spend_on_answer<R: Rows>(rows: &mut R, answer: &Value) -> bool
    // If one more may be made, the rows are as they were.
    ensures { result ≡ true → R.held rows.new ≡ R.held rows.old }
{
    rows.spend(ticks_of(answer));
    rows.may_call()
}

/// Makes the calls of a batch, one after another, up to the first that isn't done, or at which ticks are spent. The rows are then those
/// after the calls before it, or changed or half changed by that call, and the caller drops them. A `Stop` says which call, and why.
fn run_calls<R: Rows>(
    rows: &mut R,
    alloc: Global,
    programmer: ObjNo,
    calls: &[Call],
) -> Result<Answers, Stop>
    // The rows are good: sound rows of a well formed world, and petitions as they may be beside it.
    requires good { IsGood (R.held rows.old).maps }
    // There are at most 1,000 calls.
    requires few { length calls.now ≤ MOST_CALLS }
    // The rows haven't said that their ticks are spent.
    requires leave { (R.held rows.old).base.is_spent ≡ false }
    // The answers and the rows are those of the calls in the model; or it stops at the first call that isn't done there; or memory ran out.
    ensures comes { ComeTo (run_calls (state_in (R.held rows.old)) programmer calls.now) (state_in (R.held rows.new)) result }
    // If all are done, the rows are good ones, no batch is counted yet, and each call kept numbers.
    ensures kept { OnOk result (HaveKept programmer calls.now (R.held rows.old) (R.held rows.new)) }
    // At a check that fails, but for one of a granted petition's calls, the rows are good ones: those after the calls before.
    ensures good { IfErr result (IsGoodAt (R.held rows.new).maps) }
    ensures at { IfErr result (StandsAtCheck programmer calls.now (state_in (R.held rows.old)) (state_in (R.held rows.new))) }
{
    let mut answers = Vec::new(alloc);
    for call in calls {
        let number = answers.len() as u32 + 1;
        match step_on(rows, alloc, programmer, call) {
            Ok(answer) => {
                if !spend_on_answer(rows, &answer) {
                    return Err(Stop::OutOfMemory { call: number });
                }
                if answers.push(answer).is_err() {
                    return Err(Stop::OutOfMemory { call: number });
                }
            }
            Err(Fault::Moo(reason)) => {
                return Err(Stop::Refused(Refusal {
                    call: number,
                    held: None,
                    reason,
                }));
            }
            Err(Fault::Held { place, reason }) => {
                return Err(Stop::Refused(Refusal {
                    call: number,
                    held: Some(place),
                    reason,
                }));
            }
            Err(Fault::Full) => return Err(Stop::Full { call: number }),
            Err(Fault::OutOfMemory) => return Err(Stop::OutOfMemory { call: number }),
        }
    }
    Ok(Answers::from_vec(answers))
}

/// The changes of a batch without calls, on any rows with this head: the batch is counted. They take no memory.
fn changes_without_calls(alloc: Global, head: Head) -> Changes
    // A sequence number is left.
    requires room { head.seq < LAST_SEQ }
    // The changes give any rows the head given, with the next sequence number, and change nothing else.
    ensures { (t : Maps) → AreChanges t (record t { head = record head { seq = head.seq + 1 } }) result }
{
    let mut next = head;
    next.seq += 1;
    Changes {
        head: next,
        objects: ChangeList::from_vec(Vec::new(alloc)),
        props: ChangeList::from_vec(Vec::new(alloc)),
        slots: ChangeList::from_vec(Vec::new(alloc)),
        verbs: ChangeList::from_vec(Vec::new(alloc)),
        petitions: ChangeList::from_vec(Vec::new(alloc)),
    }
}

/// The verdict on a batch whose calls stopped: judged on the rows `base`, they left the rows `rows`. The witness sees why the batch is
/// refused, or at which call its ticks were spent.
fn verdict_of_stop<B: Rows, R: Rows, W: Witness>(
    alloc: Global,
    base: &B,
    rows: &R,
    batch: &Batch,
    stop: Stop,
    witness: &mut W,
) -> Verdict
    // At a check that failed the rows `rows` are good ones, unless a call of a granted petition failed.
    requires rows { IsGoodAt (R.held rows.now).maps stop }
    // The rows `base` are those of a well formed world.
    requires base { IsGood (B.held base.now).maps }
    // The verdict is Refused, Full or OutOfMemory as the calls stopped, with the call and the error.
    ensures refused { (refusal : Refusal) → stop ≡ Stop.Refused refusal → result ≡ Verdict.Refused refusal.call (error_of refusal.reason) }
    ensures full { (call : ℕ) → stop ≡ Stop.Full call → result ≡ Verdict.Full call }
    ensures memory { (call : ℕ) → stop ≡ Stop.OutOfMemory call → result ≡ Verdict.OutOfMemory }
    // No ticks are taken.
    ensures ticks { W.left witness.new ≡ W.left witness.old }
    // The witness sees a refusal once, with its facts or with none.
    ensures sees { (refusal : Refusal) → stop ≡ Stop.Refused refusal → (facts : Option Facts)
        × IfSome facts (AreFacts (world_of (R.held rows.now).maps) (B.held base.now).maps batch.now refusal)
        × W.sees (W.kept witness.old) batch.now refusal facts (W.kept witness.new) }
    // If the verdict is Full or OutOfMemory, the witness sees no refusal.
    ensures full_still { (call : ℕ) → stop ≡ Stop.Full call → W.kept witness.new ≡ W.kept witness.old }
    ensures memory_still { (call : ℕ) → stop ≡ Stop.OutOfMemory call → W.kept witness.new ≡ W.kept witness.old }
{
    match stop {
        Stop::Refused(refusal) => {
            show_refusal(alloc, base, rows, batch, refusal, witness);
            Verdict::Refused {
                call: refusal.call,
                code: refusal.reason.code(),
            }
        }
        Stop::Full { call } => Verdict::Full { call },
        Stop::OutOfMemory { call } => {
            if !rows.may_go_on() {
                witness.see_spent(call);
            }
            Verdict::OutOfMemory
        }
    }
}

/// Tells the witness how many of its ticks are left after the calls of a batch, which take one at least; nothing without a bound (`None`).
fn leave_ticks<R: Rows, W: Witness>(draft: &Draft<'_, R>, ticks: Option<u64>, witness: &mut W)
    // `ticks` is how many the witness had; if there is a bound, one at least.
    requires left { ticks ≡ W.left witness.old }
    requires some { (n : ℕ) → ticks ≡ Some n → 0 < n }
    // The witness has fewer ticks than before; without a bound there is no bound afterwards either.
    ensures takes { TakesOne ticks (W.left witness.new) }
    // The witness sees no refusal.
    ensures kept { W.kept witness.new ≡ W.kept witness.old }
{
    if let Some(ticks) = ticks {
        witness.leave(draft.ticks_left().min(ticks - 1));
    }
}

/// The verdict on a batch on these rows, which stay as they are. It is Stale if the batch names another number of accepted batches than the
/// present one, else Full if [`LAST_SEQ`] batches were accepted, else Refused or Full at the first call that isn't done, else Accepted.
/// OutOfMemory comes only if there is a call: memory ran out, or ticks were spent. If it is accepted, what stays keeps its number,
/// and what is new has a number that was never given. The witness sees once why it is refused, and how many ticks are left.
pub fn judge<R: Rows, W: Witness>(
    alloc: Global,
    rows: &R,
    batch: &Batch,
    witness: &mut W,
) -> Verdict
    // The rows are good: sound rows of a well formed world, and petitions as they may be beside it.
    requires good { IsGood (R.held rows.now).maps }
    // The verdict is that of the model on the state of the rows; or OutOfMemory, but only to a batch with calls that is due and may be
    // counted. If it is accepted, the changes lead to good rows that show the next state, and each call keeps numbers.
    ensures verdict { IsVerdict (R.held rows.now).maps batch.now result }
    // No ticks come back, and the batch takes one at least if the verdict says that a call was made (OutOfMemory doesn't).
    ensures ticks { TakesTicks (W.left witness.old) (W.left witness.new) result }
    // The witness has seen the one refusal of a refused batch, and none of another.
    ensures seen { HasSeen W.sees (R.held rows.now).maps batch.now result (W.kept witness.old) (W.kept witness.new) }
{
    let head = rows.head();
    if !is_due(batch.at, head.seq) {
        return Verdict::Stale { seq: head.seq };
    }
    if head.seq >= LAST_SEQ {
        return Verdict::Full { call: 0 };
    }
    let calls = batch.calls.items();
    if calls.is_empty() {
        return Verdict::Accepted {
            answers: Answers::from_vec(Vec::new(alloc)),
            changes: changes_without_calls(alloc, head),
        };
    }
    let ticks = witness.ticks();
    if ticks == Some(0) {
        return Verdict::OutOfMemory;
    }
    let mut draft = Draft::within(alloc, rows, ticks.unwrap_or(ENDLESS));
    let ran = run_calls(&mut draft, alloc, batch.programmer, calls);
    leave_ticks(&draft, ticks, witness);
    let answers = match ran {
        Ok(answers) => answers,
        Err(stop) => return verdict_of_stop(alloc, rows, &draft, batch, stop, witness),
    };
    let mut next = draft.head();
    next.seq = head.seq + 1;
    draft.set_head(next);
    match draft.into_changes() {
        Ok(changes) => Verdict::Accepted { answers, changes },
        Err(_) => Verdict::OutOfMemory,
    }
}
