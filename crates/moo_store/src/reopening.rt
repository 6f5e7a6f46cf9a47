//! A crash, and the opening of what it left.

ghost use Rattle.std.specs.Prelude.{IfOk, IfErr, IsSome};
ghost use Rattle.sqlite.specs.{State.{HasCleanDisk}, Held.{Held, state}};
ghost use Rattle.moo_store.specs.{Moment.{Moment, BecomesPresent}, OpeningRows.{IsOfStore}, Place.{Place, Works, MayBeLeft}, Kept.{World}};
ghost use Rattle.moo_store.specs.{Moves.{Stands}, Opening.{Adoption}, Reopened.{IsOpenedAgain}, World.{store_of}};

use sqlite::Alter;

/// A World was stopped by a crash, at whichever call of its store. If what the crash leaves is opened again, the new World works at a
/// moment that may be left at the place of the first, with all its cells, brought to the present version.
///
/// `crashed` is at `place`, whose cells are known, by the clause of the call that moved it (`moves` of `run_one` and `run`, that of
/// `apply_until`), `found` is a connection that was opened on one of the contents that the crash may have left, and `opened` is what
/// `adopt` made of that.
pub fn a_crash_is_taken_up<S: Alter, T: Alter>()
    // A World that is opened works at a moment that the place may leave, with all its cells, brought to the present version; if the disk
    // returned what was written.
    ensures stands { (crashed : World S) (place : Place) (found : Held T) (opened : Adoption T) →
        IsOpenedAgain S.Store T.Store crashed place found opened → IfOk opened (λ world. HasCleanDisk (store_of T.Store world) →
        (m now : Moment) × MayBeLeft place m × IsSome m.cells × BecomesPresent m now × Stands T.Store world (Works now)) }
    // If none is opened, the store failed or memory ran out; if the disk returned what was written.
    ensures refused { (crashed : World S) (place : Place) (found : Held T) (opened : Adoption T) →
        IsOpenedAgain S.Store T.Store crashed place found opened →
        IfErr opened (λ e. HasCleanDisk (state T.Store e.1) → IsOfStore e.0) }
{}
