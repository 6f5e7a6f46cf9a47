//! What somebody learns by a refusal.

ghost use Rattle.std.specs.{Prelude.{◌≡◌, ℕ, List, IfSome, true, false}, List.{All}};
ghost use Rattle.moo_value.specs.{declared.value.ObjNo.{ObjNo}, declared.value.Value.{Value}};
ghost use Rattle.moo_world.specs.{declared.call.Batch.{Batch}, declared.name.CallName.{CallName}, declared.reason.Reason.{Reason}};
ghost use Rattle.moo_world.specs.{Judge.{State}, Requests.{IsFormed}, Rights.{is_wizard}, World.{World}};
ghost use Rattle.moo_batch.specs.Facts.{state_before_call};
ghost use Rattle.moo_laws.specs.{Agreeing.{AgreeFor, only_asks}, Guarded.{AlikeFor, is_batch_of}, Listed.{IsListed}};
ghost use Rattle.moo_disclosure.specs.Disclosed.{clash_name, names_meant};

/// What a refusal tells besides its reason and what the call was given depends on nothing that its programmer may not see, and each name
/// in it is one that `properties` answers the programmer with. The reason itself tells no more either, by `reasons_tell_no_more`.
///
/// LambdaMOO Programmer's Manual, 'Properties on Objects' in the chapter on the database. Reasons of refusals are this server's own.
pub fn refusals_tell_no_more()
    // From states that agree for the programmer, a refusal for a reason tells the same names.
    ensures agree { (programmer : ObjNo) (state other : State) (call : CallName) (args : List Value) (reason : Reason) →
        AgreeFor programmer state other →
        (names_meant other.world programmer call args reason ≡ names_meant state.world programmer call args reason)
        × (clash_name other.world programmer args reason ≡ clash_name state.world programmer args reason) }
    // It tells the same names from states that are alike for the programmer: the same but for guarded values and what others petition for.
    ensures alike { (programmer : ObjNo) (state other : State) (call : CallName) (args : List Value) (reason : Reason) →
        AlikeFor programmer state other →
        (names_meant other.world programmer call args reason ≡ names_meant state.world programmer call args reason)
        × (clash_name other.world programmer args reason ≡ clash_name state.world programmer args reason) }
    // Before each call of a batch, where the names are looked for, states that were alike for its programmer, no wizard, still are.
    ensures alike_before { (programmer : ObjNo) (state other : State) (batch : Batch) (place : ℕ) → IsFormed state →
        is_wizard state.world programmer ≡ false → AlikeFor programmer state other → is_batch_of programmer batch ≡ true →
        AlikeFor programmer (state_before_call state programmer batch.calls place) (state_before_call other programmer batch.calls place) }
    // States that agreed for its programmer still agree there, if each call of the batch is a question or lists petitions.
    ensures agree_before { (programmer : ObjNo) (state other : State) (batch : Batch) (place : ℕ) → AgreeFor programmer state other →
        only_asks programmer batch ≡ true →
        AgreeFor programmer (state_before_call state programmer batch.calls place) (state_before_call other programmer batch.calls place) }
    // Each name that is told is one that `properties` of some object answers the programmer with.
    ensures listed { (programmer : ObjNo) (world : World) (call : CallName) (args : List Value) (reason : Reason) →
        All (IsListed world programmer) (names_meant world programmer call args reason)
        × IfSome (clash_name world programmer args reason) (IsListed world programmer) }
{}
