//! Asking batches, each of which sees the World as it is at present.

ghost use Rattle.std.specs.Prelude.{◌≡◌, ◌≢◌, false, IfOk, IsErrOf, IsTrue, MatchResult, option_map};
ghost use Rattle.moo_batch.specs.Ticks.{NoneComeBack};
ghost use Rattle.moo_world.specs.Judge.{judge};
ghost use Rattle.moo_store.specs.{Answered.{answer_of, answers_alone}, Seeing.{HasSeenEach, HasSeenPlace, HasSeenReply}};
ghost use Rattle.moo_store.specs.World.{state_of_world};

use crate::fault::StoreFault;
use crate::world::World;
use moo_batch::Witness;
use moo_text::Reply;
use moo_world::Batch;
use sqlite::Alter;
use std::alloc::AllocError;

/// A reply, unless it says that memory ran out: that is an `Err`.
fn reply_with_memory(reply: Reply) -> Result<Reply, AllocError>
    ensures { IfOk result (λ same. (same ≡ reply) × (reply ≢ Reply.NoMemory)) }
{
    match reply {
        Reply::NoMemory => Err(AllocError),
        other => Ok(other),
    }
}

/// What a batch would be answered at present. It fails if memory runs out, or if the World had failed.
#[tactic(auto, using(crate::proofs::Texts::judged_alone))]
fn ask_one<S: Alter + Drop, N: Witness>(
    world: &World<S>,
    batch: &Batch,
    witness: &mut N,
) -> Result<Reply, AllocError>
    // While the World works, it is the answer to the verdict on the batch, with the present number.
    ensures reply { world.now.failed ≡ false →
        IfOk result (λ reply. reply ≡ answer_of (state_of_world world.now) (judge (state_of_world world.now) batch.now)) }
    // The witness has no more ticks left than before.
    ensures ticks { NoneComeBack (N.left witness.old) (N.left witness.new) }
    // Of a refused batch the witness has seen the refusal, and of any other nothing.
    ensures seen { IfOk result (λ reply.
        HasSeenReply N.sees world.now.rows.maps batch.now reply (N.kept witness.old) (N.kept witness.new)) }
{
    match world.ask(batch, witness) {
        Ok(reply) => reply_with_memory(reply),
        Err(_) => Err(AllocError),
    }
}

/// What a batch would be answered at present; None in the place of no batch. It fails if memory runs out, or if the World had failed.
#[tactic(auto, using(moo_batch::proofs::Ticking::as_before))]
fn ask_alone<S: Alter + Drop, N: Witness>(
    world: &World<S>,
    batch: &Option<Batch>,
    witness: &mut N,
) -> Result<Option<Reply>, AllocError>
    // While the World works, it is the answer to the verdict on the batch, with the present number.
    ensures reply { world.now.failed ≡ false →
        IfOk result (λ reply. reply ≡ option_map
        (λ batch. answer_of (state_of_world world.now) (judge (state_of_world world.now) batch)) batch.now) }
    // The witness has no more ticks left than before.
    ensures ticks { NoneComeBack (N.left witness.old) (N.left witness.new) }
    // Of a refused batch the witness has seen the refusal, and of any other nothing.
    ensures seen { IfOk result (λ reply.
        HasSeenPlace N.sees world.now.rows.maps batch.now reply (N.kept witness.old) (N.kept witness.new)) }
{
    match batch {
        Some(batch) => Ok(Some(ask_one(world, batch, witness)?)),
        None => Ok(None),
    }
}

/// What each batch would be answered at present, if it alone were asked. It fails if memory runs out, or if the World had failed.
fn ask_all<S: Alter + Drop, N: Witness>(
    world: &World<S>,
    batches: &[Option<Batch>],
    witness: &mut N,
) -> Result<Vec<Option<Reply>>, AllocError>
    // While the World works, each batch is answered by its verdict on the present state: none sees another.
    ensures replies { world.now.failed ≡ false →
        IfOk result (λ replies. replies.items ≡ answers_alone (state_of_world world.now) batches.now) }
    // The witness has no more ticks left than before.
    ensures ticks { NoneComeBack (N.left witness.old) (N.left witness.new) }
    // The witness has seen the refusal of each refused batch, in their order, and nothing else.
    ensures seen { IfOk result (λ replies.
        HasSeenEach N.sees world.now.rows.maps batches.now replies.items (N.kept witness.old) (N.kept witness.new)) }
{
    let mut replies = Vec::new(world.alloc);
    for batch in batches {
        replies.push(ask_alone(world, batch, witness)?)?;
    }
    Ok(replies)
}

impl<S: Alter + Drop> World<S> {
    /// What each of these batches would be answered at present, as if it alone were asked: none sees another. If there is no batch at a
    /// place of the list, there is no reply at it. Nothing changes. The witness sees once why each is refused that would be, in their
    /// order. The batches share its ticks.
    ///
    /// OutOfMemory if memory or ticks run out. Closed if the World had failed.
    #[tactic(auto, using(moo_batch::proofs::Ticking::as_before))]
    pub fn ask_each<N: Witness>(
        &self,
        batches: &[Option<Batch>],
        witness: &mut N,
    ) -> Result<Vec<Option<Reply>>, StoreFault>
        // While the World works, each batch is answered by its verdict on the present state, and none sees another; or memory ran out.
        ensures replies { self.now.failed ≡ false → MatchResult result
            (λ replies. replies.items ≡ answers_alone (state_of_world self.now) batches.now)
            (λ fault. fault ≡ StoreFault.OutOfMemory) }
        // If the World had failed, the fault is Closed.
        ensures closed { IsTrue self.now.failed → IsErrOf result StoreFault.Closed }
        // The witness has no more ticks left than before.
        ensures ticks { NoneComeBack (N.left witness.old) (N.left witness.new) }
        // The witness has seen the refusal of each refused batch, in their order, and nothing else.
        ensures seen { IfOk result (λ replies.
            HasSeenEach N.sees self.now.rows.maps batches.now replies.items (N.kept witness.old) (N.kept witness.new)) }
    {
        if self.failed {
            return Err(StoreFault::Closed);
        }
        match ask_all(self, batches, witness) {
            Ok(replies) => Ok(replies),
            Err(_) => Err(StoreFault::OutOfMemory),
        }
    }
}
