//! What is left of the files of a connection that was stopped, by what the disk says of their bytes.

ghost use Rattle.std.specs.Prelude.{IfOk, IfErr, IsSome};
ghost use Rattle.sqlite_store.specs.declared.store.FileStore.{FileStore};
ghost use Rattle.sqlite_wal.specs.Recovery.{Image};
ghost use Rattle.sqlite.specs.{Tree.{Trees}, State.{HasCleanDisk}, Held.{Held, AreDatabases}, Files.{over_files, file_state}};
ghost use Rattle.moo_world.specs.Judge.{State};
ghost use Rattle.moo_store.specs.{Moment.{Moment, AreTreesOf, IsSparedMoment}, OpeningRows.{IsOfStore}};
ghost use Rattle.moo_store.specs.{Place.{Place, moment_of, MayBeLeft, CrashLeavesAt}, Kept.{World}, Moves.{Stands}, World.{store_of}};
ghost use Rattle.moo_files.specs.Contents.{HoldsSuch, HoldsMoment, HoldsState, HoldsTrees, IsKept, IsLeftBy};
ghost use Rattle.moo_files.specs.Opened.{Attempt, OpensAt, OpensHeld, RefusesHeld};
ghost use Rattle.moo_files.specs.Remains.{IsCleanRemains, KeepsSuch, StillHolds, StillHoldsTrees};
ghost use Rattle.moo_files.specs.{Stop.{DiskLeaves, IsNumberedStore, BytesLeave, AreNumbered}, declared.remains.Remains.{Remains}};

use sqlite_disk::Disk;

/// A connection is stopped, at any call. Whatever the disk then leaves of the bytes of its two files, they hold a database that the
/// connection may leave.
///
/// `image` is any contents of the log and of the database file that the disk allows (`DiskLeaves`). The disk was clean up to the stop, and
/// the trees of the connection are numbered (`IsNumberedStore`): `close_connection` says so of a connection whose disk is clean until it is
/// closed.
pub fn disk_leaves_a_database<D: Disk>()
    // The files hold a database that the connection may leave, if all that it may leave are databases.
    ensures left { (conn : Held (FileStore D D.Disk)) (image : Image) → HasCleanDisk (file_state conn) → IsNumberedStore conn.store →
        AreDatabases (file_state conn).may_leave → DiskLeaves conn.store image → IsLeftBy (file_state conn) image }
    // So they do if a crash leaves of the connection what may be left at a place (`CrashLeavesAt`) whose cells are known, as of that of a
    // World.
    ensures place { (conn : Held (FileStore D D.Disk)) (place : Place) (image : Image) → HasCleanDisk (file_state conn) →
        IsNumberedStore conn.store → IsSome (moment_of place).cells → CrashLeavesAt (file_state conn) place →
        DiskLeaves conn.store image → IsLeftBy (file_state conn) image }
{}

/// Files over which no task ran are stopped, at any call: while they are open still, or after they are closed. Whatever the disk then
/// leaves of the bytes of the two files, they hold a database of the kind that they kept.
///
/// `image` is what they held, and `next` any contents that the disk allows (`BytesLeave`). The disk was clean up to the stop.
/// `Remains::close` says of files that have a connection that its trees are numbered.
pub fn disk_leaves_what_was_kept<T, D: Disk>()
    // Files that kept a state hold it.
    ensures state { (s : State) (image : Image) (rest : Remains T D D.Disk) (next : Image) → IsCleanRemains rest → AreNumbered rest →
        HoldsState image s → StillHolds image rest s → BytesLeave image rest next → HoldsState next s }
    // Files that kept a database hold it, or what it was migrated to.
    ensures trees { (trees : Trees) (image : Image) (rest : Remains T D D.Disk) (next : Image) → IsCleanRemains rest →
        AreNumbered rest → HoldsTrees image trees → AreDatabases (IsKept trees) → StillHoldsTrees image rest trees →
        BytesLeave image rest next → HoldsSuch (IsKept trees) next }
    // Files that kept a moment hold it, or one of the same rows that it was migrated to.
    ensures moment { (m : Moment) (image : Image) (rest : Remains T D D.Disk) (next : Image) → IsCleanRemains rest →
        AreNumbered rest → HoldsMoment image m →
        KeepsSuch (λ trees. (end : Moment) × IsSparedMoment m end × AreTreesOf end trees) image rest →
        BytesLeave image rest next → (end : Moment) × IsSparedMoment m end × HoldsMoment next end }
{}

/// What is found if the files of a World that was stopped are opened: as `open_again`, from what the disk leaves of their bytes. Up to the
/// stop the disk had returned what was written; the cells of the place are known, and the trees of the connection are numbered.
pub fn open_after_stop<C: Disk, T, D: Disk>()
    // The files hold a moment that the place of the World may leave. A World that is opened works at it, brought to the present version, if
    // its disk returned what was written.
    ensures found { (stopped : World (FileStore C C.Disk)) (place : Place) (image : Image) (opened : Attempt T D D.Disk) →
        Stands over_files stopped place → IsSome (moment_of place).cells → HasCleanDisk (store_of over_files stopped) →
        IsNumberedStore stopped.connection.store → DiskLeaves stopped.connection.store image → OpensHeld image opened →
        (m : Moment) × MayBeLeft place m × HoldsMoment image m
        × IfOk opened (λ world. HasCleanDisk (store_of over_files world) → OpensAt m world) }
    // If no World is opened, and the disk returned what was written (`IsCleanRemains`), the files aren't called damaged: the store failed
    // or memory ran out.
    ensures refused { (stopped : World (FileStore C C.Disk)) (place : Place) (image : Image) (opened : Attempt T D D.Disk) →
        Stands over_files stopped place → IsSome (moment_of place).cells → HasCleanDisk (store_of over_files stopped) →
        IsNumberedStore stopped.connection.store → DiskLeaves stopped.connection.store image → RefusesHeld image opened →
        IfErr opened (λ e. IsCleanRemains e.1 → IsOfStore e.0) }
{}
