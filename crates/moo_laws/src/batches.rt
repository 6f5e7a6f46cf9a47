//! What somebody learns by batches that only read.

ghost use Rattle.std.specs.{Prelude.{◌≡◌, List, true, false}, List.{list_all}};
ghost use Rattle.moo_value.specs.{declared.value.ObjNo.{ObjNo}, declared.value.Value.{Value}};
ghost use Rattle.moo_world.specs.{declared.call.Batch.{Batch}, Judge.{State, judge, left_by}, Objects.{Name}, Rights.{is_wizard}};
ghost use Rattle.moo_world.specs.World.{IsWellFormed};
ghost use Rattle.moo_laws.specs.Agreeing.{AgreeFor, SameVerdict, TellTheSame, SameOwnPetitions, only_asks, with_value};
ghost use Rattle.moo_laws.specs.Reading.{IsHidden, LookAlike};

/// What batches of calls that only read tell their programmer depends on no value and on no petition that the programmer may not see: from
/// two states that agree for the programmer they have the same verdicts, one after another. Two states agree for a programmer if their
/// worlds are the same but for values that the programmer may not read, if the programmer may see the same petitions in both, and if as
/// many batches were accepted. `batches_tell_no_more` is about batches that change something, too.
///
/// LambdaMOO Programmer's Manual, 'Properties on Objects' in the chapter on the database. Petitions are this server's own.
pub fn reading_batches_tell_no_more()
    // A batch whose calls only read, and list petitions, has the same verdict in both states.
    ensures batch { (programmer : ObjNo) (state other : State) (batch : Batch) → AgreeFor programmer state other →
        only_asks programmer batch ≡ true → SameVerdict (judge state batch) (judge other batch) }
    // The two states agree after the batch too.
    ensures after { (programmer : ObjNo) (state other : State) (batch : Batch) → AgreeFor programmer state other →
        only_asks programmer batch ≡ true →
        AgreeFor programmer (left_by state (judge state batch)) (left_by other (judge other batch)) }
    // So batches, one after another, have the same verdicts in both.
    ensures batches { (programmer : ObjNo) (state other : State) (batches : List Batch) → AgreeFor programmer state other →
        list_all (only_asks programmer) batches ≡ true → TellTheSame batches state other }
    // Whoever may not read a value learns nothing of it: with another value in its place, each verdict is the same.
    ensures values { (programmer object : ObjNo) (name : Name) (value : Value) (state : State) (batches : List Batch) →
        IsWellFormed state.world → IsHidden state.world programmer object name → list_all (only_asks programmer) batches ≡ true →
        TellTheSame batches state (with_value state object name value) }
    // Two states agree for somebody who isn't a wizard if the worlds look alike, as many batches were accepted, and the programmer's own
    // petitions are the same. The petitions of others may be any.
    ensures petitions { (programmer : ObjNo) (state other : State) → is_wizard state.world programmer ≡ false →
        LookAlike programmer state.world other.world → other.seq ≡ state.seq → SameOwnPetitions programmer state other →
        AgreeFor programmer state other }
{}
