//! What somebody who isn't a wizard learns by any batches.

ghost use Rattle.std.specs.{Prelude.{◌≡◌, List, Some, true, false}, List.{list_all}, FinMap.{get, insert}};
ghost use Rattle.moo_value.specs.{declared.value.ObjNo.{ObjNo}, declared.value.Value.{Value}};
ghost use Rattle.moo_rows.specs.{declared.row.PetitionId.{PetitionId}, declared.row.PetitionRow.{PetitionRow}};
ghost use Rattle.moo_world.specs.{declared.call.Batch.{Batch}, Judge.{State, after}, Objects.{Name, folded, same_object}};
ghost use Rattle.moo_world.specs.{Requests.{IsFormed}, Rights.{is_wizard}, World.{Slot, slot_of}};
ghost use Rattle.moo_laws.specs.{Agreeing.{TellTheSame, with_value}, Guarded.{AlikeFor, IsGuarded, is_batch_of}};

/// What somebody who isn't a wizard is told by any batches depends on no guarded value, and on nothing of the petitions of others but their
/// numbers: from two states that are alike for the programmer the batches have the same verdicts, one after another, and leave states that
/// are alike. What the batches give may nest 32 deep, with integers of 64 bits, objects whose numbers have 32, and strings that are texts.
///
/// LambdaMOO Programmer's Manual, 'Properties on Objects' in the chapter on the database. Petitions are this server's own.
pub fn batches_tell_no_more()
    // Batches have the same verdicts in both states, and leave states that are alike.
    ensures batches { (programmer : ObjNo) (state other : State) (batches : List Batch) → IsFormed state →
        is_wizard state.world programmer ≡ false → AlikeFor programmer state other →
        list_all (is_batch_of programmer) batches ≡ true →
        TellTheSame batches state other × AlikeFor programmer (after state batches) (after other batches) }
    // With another value in place of a guarded one, the state is alike. Different values make different states.
    ensures values { (programmer object : ObjNo) (name : Name) (slot : Slot) (value other : Value) (state : State) →
        slot_of state.world object (folded name) ≡ Some slot → IsGuarded state.world programmer slot.definer (folded name) →
        AlikeFor programmer state (with_value state object name value) ×
        (with_value state object name value ≡ with_value state object name other → value ≡ other) }
    // With any petition of anybody but the programmer in place of a petition of somebody else, the state is alike.
    ensures petitions { (programmer : ObjNo) (state : State) (id : PetitionId) (row other : PetitionRow) →
        get state.petitions id ≡ Some row → same_object row.who programmer ≡ false → same_object other.who programmer ≡ false →
        AlikeFor programmer state (record state { petitions = insert state.petitions id other }) }
{}
