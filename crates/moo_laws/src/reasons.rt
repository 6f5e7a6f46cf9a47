//! What somebody learns by the reason of a refusal.

ghost use Rattle.std.specs.Prelude.{◌≡◌, true, false};
ghost use Rattle.moo_value.specs.declared.value.ObjNo.{ObjNo};
ghost use Rattle.moo_world.specs.{declared.call.Batch.{Batch}, Judge.{State}, Requests.{IsFormed}, Rights.{is_wizard}};
ghost use Rattle.moo_laws.specs.{Agreeing.{AgreeFor, only_asks, refusal_of}, Guarded.{AlikeFor, is_batch_of}};

/// Why a batch is refused depends on nothing that its programmer may not see: from states that are alike, or that agree, the same call is
/// refused for the same reason, about the same objects.
///
/// LambdaMOO Programmer's Manual, 'Properties on Objects' in the chapter on the database. Reasons of refusals are this server's own.
pub fn reasons_tell_no_more()
    // States are alike if they differ only in values of guarded properties, whose slots are all somebody else's and have no `r`, `w` or
    // `c` (never quotas), and in what petitions of others hold. From two of them any batch of somebody who isn't a wizard has the same
    // first call that fails, and why; or none.
    ensures alike { (programmer : ObjNo) (state other : State) (batch : Batch) → IsFormed state →
        is_wizard state.world programmer ≡ false → AlikeFor programmer state other → is_batch_of programmer batch ≡ true →
        refusal_of other batch ≡ refusal_of state batch }
    // States agree if the worlds differ only in values that the programmer may not read, the programmer sees the same petitions in both,
    // and as many batches were accepted. From two of them a batch that only reads has the same first call that fails, and why; or none.
    ensures agree { (programmer : ObjNo) (state other : State) (batch : Batch) → AgreeFor programmer state other →
        only_asks programmer batch ≡ true → refusal_of other batch ≡ refusal_of state batch }
{}
