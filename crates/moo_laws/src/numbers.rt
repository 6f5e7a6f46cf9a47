//! What becomes of the numbers of objects, over any batches.

ghost use Rattle.std.specs.Prelude.{List};
ghost use Rattle.moo_world.specs.{declared.call.Batch.{Batch}, Judge.{State, after}};
ghost use Rattle.moo_laws.specs.ObjectNumbers.{KeepsObjectNumbers};

/// Over any batches, a wizard's too, the number of an object isn't given again: under a number that was given there is the object that was
/// there before, or none.
pub fn object_numbers_stay()
    // The greatest number that was given doesn't fall, and each object under a number given before was there before.
    ensures { (state : State) (batches : List Batch) → KeepsObjectNumbers state.world (after state batches).world }
{}
