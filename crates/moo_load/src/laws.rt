//! What holds of dumps.

ghost use Rattle.std.specs.Prelude.{◌≡◌, ◌<◌, length};
ghost use Rattle.moo_dump.specs.Dump.{dump};
ghost use Rattle.moo_world.specs.{Judge.{State, state_of}, Rows.{IsGood}};
ghost use Rattle.moo_load.specs.{OneState.{IsHeld, AreTheSame}, RowsOf.{HasNumbers, AreRowsOf}};
ghost use Rattle.moo_rows.specs.Maps.{Maps};

/// A dump names one state: two well formed states with the same dump have the same objects, with their rows, definitions, slots
/// and verbs, the same petitions, and the same counts. Only the numbers of the next property, verb and petition may differ.
pub fn one_state()
    // The states are the same but for the numbers of the next property, verb and petition.
    ensures { (s t : State) → IsHeld s → IsHeld t → dump s ≡ dump t → AreTheSame s t }
{}

/// The rows of a well formed state, with a number left for each property and each verb, are good ones, and show the state.
pub fn rows_show_the_state()
    // The rows are good ones.
    ensures good { (s : State) (m : Maps) → IsHeld s → HasNumbers s → AreRowsOf s m → IsGood m }
    // The rows show the state, but for the numbers of the next property, verb and petition.
    ensures same { (s : State) (m : Maps) → IsHeld s → HasNumbers s → AreRowsOf s m → AreTheSame (state_of m) s }
    // The dump of the rows is that of the state.
    ensures dump { (s : State) (m : Maps) → IsHeld s → HasNumbers s → AreRowsOf s m → dump (state_of m) ≡ dump s }
{}

/// A state whose dump has fewer than 4,294,967,295 bytes has a number left for each property and each verb.
pub fn short_dumps_have_numbers()
    ensures { (s : State) → length (dump s) < 4294967295 → HasNumbers s }
{}
