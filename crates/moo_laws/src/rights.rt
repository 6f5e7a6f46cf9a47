//! What somebody who isn't a wizard can't do, over any batches.

ghost use Rattle.std.specs.{Prelude.{◌≡◌, List, [], ◌∷◌, true, false}, List.{list_all}};
ghost use Rattle.moo_rows.specs.Maps.{Maps};
ghost use Rattle.moo_world.specs.{declared.call.Batch.{Batch}, Between.{BatchLeads}, Judge.{State, judge, left_by, after, state_of}};
ghost use Rattle.moo_world.specs.{KeptForm.{arguments_fit}, Requests.{IsFormed}, Rights.{is_wizard}, Rows.{IsGood, world_of}};
ghost use Rattle.moo_laws.specs.NobodyRises.{NoWizardActs, KeepsRights};

/// If no accepted batch is a wizard's at its turn, nobody rises. Whoever is a player, a programmer or a wizard in the end was one before.
/// An object that stays keeps its owner and these three flags, and a slot that is never away keeps its owner, under any name. What the
/// batches give may nest 32 deep, with integers of 64 bits, objects whose numbers have 32, and strings that are texts.
///
/// LambdaMOO Programmer's Manual, 'Fundamental Object Attributes' and 'Properties on Objects' in the chapter on the database.
pub fn nobody_rises()
    // Over any batches, of which no accepted one is a wizard's at its turn.
    ensures batches { (state : State) (batches : List Batch) → IsFormed state →
        list_all (λ batch. list_all arguments_fit batch.calls) batches ≡ true → NoWizardActs state batches →
        KeepsRights state batches (after state batches) }
    // Over one batch that leads on from good rows, and whose programmer isn't a wizard. Its calls may give any values.
    ensures batch { (batch : Batch) (rows next : Maps) → IsGood rows → BatchLeads batch rows next →
        state_of next ≡ left_by (state_of rows) (judge (state_of rows) batch) → is_wizard (world_of rows) batch.programmer ≡ false →
        KeepsRights (state_of rows) (batch ∷ []) (state_of next) }
{}
