//! What holds of runs as wholes.

ghost use Rattle.std.specs.{Prelude.{◌≡◌, ◌++◌, false, true, List}, List.{AllByRecursion}};
ghost use Rattle.moo_world.specs.{declared.call.Batch.{Batch}, Judge.{after}, Numbers.{NumbersStay}, Requests.{PetitionsStay, state_of}};
ghost use Rattle.moo_world.specs.Rows.{IsGood};
ghost use Rattle.moo_text.specs.{declared.next.Next.{Next}, declared.reply.Answer.{Answer}};
ghost use Rattle.moo_store.specs.{Text.{accepted, is_plain, replies, answers_asked, batches_of}, Turns.{Turns}};
ghost use Rattle.moo_store.specs.{Stopping.{AreAccepted, EndAtFirst, up_to_first}, Rehearsed.{RehearsesAt}};
ghost use Rattle.moo_store.specs.{Moment.{Moment, state_of_moment, LeadsByEach}, Place.{Place, moment_of}, Kept.{World}};
ghost use Rattle.moo_store.specs.Moves.{Stands, RunsAt, AsksAt, state_at};

use sqlite::Alter;

/// If memory doesn't run out and no fault comes, each batch of a text is judged after the accepted ones before it.
#[tactic(auto, using(crate::proofs::Standing::plain_run))]
pub fn plain_answers_are_judged()
    ensures { (old new : Place) (items : List Next) (answers : List Answer) → Turns RunsAt old items answers new →
        AllByRecursion (λ answer. is_plain answer ≡ true) answers →
        (answers ≡ replies (state_at old) items) × (state_at new ≡ after (state_at old) (batches_of items)) }
{}

/// If memory doesn't run out and no fault comes, each batch of a text of questions is judged on the one state.
#[tactic(auto, using(crate::proofs::Standing::plain_asked))]
pub fn plain_questions_are_judged()
    ensures { (old new : Place) (items : List Next) (answers : List Answer) → Turns AsksAt old items answers new →
        AllByRecursion (λ answer. is_plain answer ≡ true) answers → answers ≡ answers_asked (state_at old) items }
{}

/// A text that stops at the first answer that isn't `accepted` is answered as the whole text is, up to and with that answer, if memory
/// doesn't run out and no fault comes. If all its answers are `accepted`, it is answered whole.
#[tactic(auto, using(crate::proofs::Standing::early_front, crate::proofs::Standing::whole_front))]
pub fn stops_are_fronts()
    // It stopped: the answers are those to the whole text, up to and with the first that isn't `accepted`.
    ensures early { (old new : Place) (done left : List Next) (answers : List Answer) → Turns RunsAt old done answers new →
        AllByRecursion (λ answer. is_plain answer ≡ true) answers → EndAtFirst answers →
        answers ≡ up_to_first (replies (state_at old) (done ++ left)) }
    // All are `accepted`: the answers are those to the whole text.
    ensures whole { (old new : Place) (items : List Next) (answers : List Answer) → Turns RunsAt old items answers new →
        AreAccepted answers → answers ≡ up_to_first (replies (state_at old) items) }
{}

/// A rehearsal of a text answers what running the text answers, if memory doesn't run out and no fault comes.
#[tactic(auto, using(crate::proofs::Standing::told_run))]
pub fn rehearsals_tell_runs()
    ensures { (first told old new : Place) (items : List Next) (rehearsed answers : List Answer) →
        state_at first ≡ state_at old → Turns RehearsesAt first items rehearsed told → Turns RunsAt old items answers new →
        AllByRecursion (λ answer. is_plain answer ≡ true) rehearsed → AllByRecursion (λ answer. is_plain answer ≡ true) answers →
        rehearsed ≡ answers }
{}

/// Batches that lead on from where others led join to one list.
#[tactic(auto, using(crate::proofs::Leading::leads_join))]
pub fn leads_join()
    ensures { (m mid end : Moment) (first second : List Batch) → LeadsByEach m first mid → LeadsByEach mid second end →
        LeadsByEach m (first ++ second) end }
{}

/// The acknowledged batches of a text lead from the moment where it began to the one where it ended.
#[tactic(auto, using(crate::proofs::Leading::turns_lead))]
pub fn turns_lead()
    ensures { (from to : Place) (items : List Next) (answers : List Answer) → Turns RunsAt from items answers to →
        LeadsByEach (moment_of from) (accepted items answers) (moment_of to) }
{}

/// The state to which batches lead is that after them.
#[tactic(auto, using(crate::proofs::Leading::leads_after))]
pub fn leads_decide()
    ensures { (m end : Moment) (batches : List Batch) → LeadsByEach m batches end →
        state_of_moment end ≡ after (state_of_moment m) batches }
{}

/// In the rows to which batches lead, every property, verb and petition that is kept has its number, and no other one has a number that
/// was given before.
#[tactic(auto, using(crate::proofs::Leading::leads_stay, crate::proofs::Leading::leads_keep_petitions))]
pub fn leads_keep_numbers()
    ensures numbers { (m end : Moment) (batches : List Batch) → LeadsByEach m batches end → NumbersStay m.rows end.rows }
    ensures petitions { (m end : Moment) (batches : List Batch) → LeadsByEach m batches end →
        PetitionsStay (state_of m.rows) (state_of end.rows) }
{}

/// Every World is at some place, so that a clause about each place where a World is says something of every World.
pub fn every_world_stands<S: Alter>()
    ensures { (world : World S) → (world.failed ≡ false → IsGood world.rows.maps) → (place : Place) × Stands S.Store world place }
{}
