//! What becomes of the quota of somebody who isn't a wizard, over any batches.

ghost use Rattle.std.specs.{Prelude.{◌≡◌, ℤ, List, true}, List.{list_all}};
ghost use Rattle.moo_value.specs.declared.value.ObjNo.{ObjNo};
ghost use Rattle.moo_world.specs.{declared.call.Batch.{Batch}, Judge.{State, after}, KeptForm.{arguments_fit}, Requests.{IsFormed}};
ghost use Rattle.moo_laws.specs.{KeptQuotas.{HasKeptQuota, QuotaMoves, calls_of_kind, ends, makes}, NobodyRises.{NoWizardActs}};

/// If no accepted batch is a wizard's at its turn, a quota that wizards keep falls by one for each object that its owner makes, and rises
/// by one for each that its owner recycles, unless it may have come to the greatest integer. Nothing else moves it. What the batches give
/// may nest 32 deep, with integers of 64 bits, objects whose numbers have 32, and strings that are texts.
///
/// LambdaMOO Programmer's Manual, 'Fundamental Operations on Objects': `create` and `recycle`.
pub fn kept_quotas_move()
    // The quota falls by one for each accepted `create` call of its owner, and rises by one for each accepted `recycle`, or by less if it
    // may have come to the greatest integer.
    ensures { (owner : ObjNo) (quota : ℤ) (state : State) (batches : List Batch) → IsFormed state →
        list_all (λ batch. list_all arguments_fit batch.calls) batches ≡ true → NoWizardActs state batches →
        HasKeptQuota state.world owner quota →
        QuotaMoves (after state batches).world owner quota (calls_of_kind makes owner state batches)
        (calls_of_kind ends owner state batches) }
{}
