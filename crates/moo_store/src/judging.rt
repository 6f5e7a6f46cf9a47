//! What rows answer to a batch, before anything of it is kept.

ghost use Rattle.std.specs.Prelude.{◌≡◌, IfOk, IfErr, MatchResult};
ghost use Rattle.moo_batch.specs.{Judge.{IsVerdict}, Ticks.{NoneComeBack}, declared.judging.Verdict.TheVariants.{Accepted}};
ghost use Rattle.moo_world.specs.{Judge.{state_of}, Rows.{IsGood}};
ghost use Rattle.moo_store.specs.{Seeing.{HasSeenReply}, Moment.{Moment}, Place.{Works}, Moves.{RunsAt, MayReplyAsked}};

use moo_batch::{Verdict, Witness, judge};
use moo_memory::{Changes, Flat};
use moo_text::{Answer, Reply};
use moo_world::{Answers, Batch};
use std::alloc::Global;

/// Judges a batch on rows: the answers and the changes if it is accepted, else the reply to it. Nothing changes. If it is refused, the
/// witness sees why, once.
#[tactic(auto, using(moo_batch::proofs::Ticking::of_batch, crate::proofs::Verdicts::refused_stays, crate::proofs::Verdicts::no_room_stays))]
pub(crate) fn reply_or_changes<N: Witness>(
    alloc: Global,
    rows: &Flat,
    batch: &Batch,
    witness: &mut N,
) -> Result<(Answers, Changes), Reply>
    // The rows are good: sound rows of a well formed world, and petitions as they may be beside it.
    requires { IsGood rows.now.maps }
    // If the batch is accepted, the answers and the changes are those of its verdict.
    ensures accepted { IfOk result (λ taken. IsVerdict rows.now.maps batch.now (Accepted taken.0 taken.1)) }
    // A World of these rows may reply so, and stays where it is.
    ensures stays { IfErr result (λ reply.
        (m : Moment) → m.rows ≡ rows.now.maps → RunsAt (Works m) batch.now (Answer.Replied reply) (Works m)) }
    // A World that is only asked may reply so too.
    ensures asked { IfErr result (MayReplyAsked (state_of rows.now.maps) batch.now) }
    // The witness has no more ticks left than before.
    ensures ticks { NoneComeBack (N.left witness.old) (N.left witness.new) }
    // Of a refused batch the witness has seen the refusal, and of any other nothing.
    ensures seen { MatchResult result (λ _. N.kept witness.new ≡ N.kept witness.old)
        (λ reply. HasSeenReply N.sees rows.now.maps batch.now reply (N.kept witness.old) (N.kept witness.new)) }
{
    match judge(alloc, rows, batch, witness) {
        Verdict::Accepted { answers, changes } => Ok((answers, changes)),
        Verdict::Refused { call, code } => Err(Reply::Refused { call, code }),
        Verdict::Full { call } => Err(Reply::Full { call }),
        Verdict::Stale { seq } => Err(Reply::Stale { seq }),
        Verdict::OutOfMemory => Err(Reply::NoMemory),
    }
}
