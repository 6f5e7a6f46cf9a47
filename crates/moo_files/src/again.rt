//! Opening again what a crash left.

ghost use Rattle.std.specs.Prelude.{IfOk, IfErr, IsSome};
ghost use Rattle.sqlite_store.specs.declared.store.FileStore.{FileStore};
ghost use Rattle.sqlite_wal.specs.Recovery.{Image};
ghost use Rattle.sqlite.specs.{State.{HasCleanDisk}, Files.{over_files}};
ghost use Rattle.moo_store.specs.{Moment.{Moment}, OpeningRows.{IsOfStore}, Place.{Place, moment_of, MayBeLeft}, Kept.{World}};
ghost use Rattle.moo_store.specs.{Moves.{Stands}, World.{store_of}};
ghost use Rattle.moo_files.specs.{Contents.{HoldsMoment, IsLeftBy}, Opened.{Attempt, OpensAt, OpensHeld, RefusesHeld}};
ghost use Rattle.moo_files.specs.Remains.{IsCleanRemains};

use sqlite_disk::Disk;

/// What is found if the files of a World are opened that a crash left.
///
/// `crashed` is the World before the crash, whose disk had returned what was written, and `place` is where it was, with known cells. The
/// calls of a World say to which place they lead, and so which moment a crash leaves, with its rows and its cells. `image` is what the
/// files hold after the crash: a database that the store may have left. `opened` is what `open_from` answers for such files: its clauses
/// `opens` and `refuses` give the two premises `OpensHeld` and `RefusesHeld` (`moo_files/proofs/OpenedLemmas.antt`).
pub fn open_again<C: Disk, T, D: Disk>()
    // The files hold a moment that the place of the World may leave. A World that is opened works at it, brought to the present version, if
    // its disk returned what was written.
    ensures found { (crashed : World (FileStore C C.Disk)) (place : Place) (image : Image) (opened : Attempt T D D.Disk) →
        Stands over_files crashed place → IsSome (moment_of place).cells → HasCleanDisk (store_of over_files crashed) →
        IsLeftBy (store_of over_files crashed) image → OpensHeld image opened →
        (m : Moment) × MayBeLeft place m × HoldsMoment image m
        × IfOk opened (λ world. HasCleanDisk (store_of over_files world) → OpensAt m world) }
    // If no World is opened, and the disk returned what was written (`IsCleanRemains`), the files aren't called damaged: the store
    // failed or memory ran out.
    ensures refused { (crashed : World (FileStore C C.Disk)) (place : Place) (image : Image) (opened : Attempt T D D.Disk) →
        Stands over_files crashed place → IsSome (moment_of place).cells → HasCleanDisk (store_of over_files crashed) →
        IsLeftBy (store_of over_files crashed) image → RefusesHeld image opened →
        IfErr opened (λ e. IsCleanRemains e.1 → IsOfStore e.0) }
{}
