//! Laws of the definitions of damage.

ghost use Rattle.moo_damage.specs.Laws.{CleanRowsAreGood, GoodRowsAreClean, GoodRowsHaveNoDamage};
ghost use Rattle.moo_damage.specs.Local.{HeldSlotsAreLocal, LocalSlotsHold};

/// Rows within their limits that have no damage are good ones: they show a well formed world, and petitions as they may be beside it.
pub fn clean_rows_are_good()
    ensures { CleanRowsAreGood }
{}

/// In good rows numbers, links, properties, slots and verbs are right.
pub fn good_rows_are_clean()
    ensures { GoodRowsAreClean }
{}

/// No kind of damage is met at any key of good rows.
pub fn good_rows_have_no_damage()
    ensures { GoodRowsHaveNoDamage }
{}

/// If each slot is right by a look at its object and the parent's slots, and chains end, the slots are just those that are owed.
pub fn local_slots_hold()
    ensures { LocalSlotsHold }
{}

/// If the slots are just those that are owed, properties are numbered from 1, their definers are objects, and chains end, each slot is
/// right by a look at its object and the parent's slots.
pub fn held_slots_are_local()
    ensures { HeldSlotsAreLocal }
{}
