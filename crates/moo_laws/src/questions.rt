//! What somebody learns by calls that only read.

ghost use Rattle.std.specs.Prelude.{◌≡◌, true};
ghost use Rattle.moo_value.specs.{declared.value.ObjNo.{ObjNo}, declared.value.Value.{Value}};
ghost use Rattle.moo_world.specs.{declared.call.Call.{Call}, Changes.{value_set}, Objects.{Name}, World.{World, IsWellFormed}};
ghost use Rattle.moo_world.specs.Calls.{world_call};
ghost use Rattle.moo_laws.specs.Reading.{is_question, IsHidden, LookAlike, SameAnswer};

/// What a call that only reads answers depends on no value that the programmer may not read: in two worlds that look alike to a programmer,
/// it has one answer, or fails for one reason. `batches_tell_no_more` is about calls that change something.
///
/// LambdaMOO Programmer's Manual, 'Properties on Objects' in the chapter on the database.
pub fn questions_tell_no_more()
    // Two worlds look alike to a programmer if they differ only in values of slots, and each slot that the programmer may read is clear in
    // both or in neither and reads the same value. The call has one answer, or fails for one reason, in both.
    ensures answers { (programmer : ObjNo) (world other : World) (call : Call) → LookAlike programmer world other →
        is_question call.name ≡ true → SameAnswer (world_call world programmer call) (world_call other programmer call) }
    // A value is hidden from the programmer if it may read the slot neither of the object nor of any descendant. It may be any value:
    // the world looks alike with another one.
    ensures hidden { (programmer object : ObjNo) (name : Name) (value : Value) (world : World) → IsWellFormed world →
        IsHidden world programmer object name → LookAlike programmer world (value_set world object name value) }
{}
