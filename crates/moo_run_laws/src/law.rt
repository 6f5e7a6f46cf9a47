//! The law of the program, of any two runs.

ghost use Rattle.std.specs.Prelude.{◌≡◌};
ghost use Rattle.sqlite.specs.{Files.{file_state}, Held.{Held}};
ghost use Rattle.sqlite_store.specs.declared.store.FileStore.{FileStore};
ghost use Rattle.sqlite_wal.specs.Recovery.{Image};
ghost use Rattle.moo_cli.specs.{declared.task.Task.{Task}, declared.task.Service.{Service}, declared.task.Action.TheVariants.{Serve}};
ghost use Rattle.moo_store.specs.Moment.{Moment};
ghost use Rattle.moo_files.specs.Remains.{IsCleanRemains};
ghost use Rattle.moo_run.specs.{Ends.{IsClosedEnd}, Run.{RunsIn}};
ghost use Rattle.moo_run_laws.specs.{FileRuns.{FileRun, Follows, HandsOver, IsFoundAfter, run_of, ServedTo}, Halted.{EndLeaves}};

use moo_run::HasRun;

/// The program runs over a file, on a disk that returns what was written, to the end of its words, and closes it or is stopped. It runs
/// again over what is then found: it goes on from a moment that the first run may leave, with its state, all its numbers and each of its
/// cells; of version 1, with the cells of objects, properties and verbs.
///
/// A run is what the clause `over` of `run_words` says of it: any words, with any input, over any host. `run_to_end`, the call that the
/// program makes, says it too, and closes the file after that. `run_and_run_again` makes two such calls, and says it of them;
/// `stop_and_run_again` says it of a first run whose file isn't closed.
pub fn runs_lead_on<S: HasRun, N: HasRun>()
    // If the second run is over what is found after the first, the first leads its file to a moment from which the second goes on.
    ensures follows { (first : FileRun S.HasRun S.Disk.Disk) (next : FileRun N.HasRun N.Disk.Disk) → Follows first next →
        HandsOver first next }
{}

/// The bytes that the disk may leave of the files of a run, once they are closed, are bytes that may be found after it (`IsFoundAfter`). So
/// `runs_lead_on` says from what a run over them goes on.
pub fn ends_are_found<S: HasRun>()
    ensures found { (run : FileRun S.HasRun S.Disk.Disk) (next : Image) → IsClosedEnd run.ends run.closed → IsCleanRemains run.closed →
        EndLeaves run.image run.ends run.closed next → IsFoundAfter run next }
{}

/// A service that ran from a moment ended where its connections led: or its port was refused, and it ended where it began.
pub fn services_end_where_connections_led<S: HasRun>()
    ensures served { (run : FileRun S.HasRun S.Disk.Disk) (conn : Held (FileStore S.Disk S.Disk.Disk)) (task : Task) (service : Service)
        (m : Moment) → task.action ≡ Serve service → (ran : RunsIn (file_state conn) task m (run_of run)) →
        ServedTo (run_of run).given.ports service.port m ran.0.end }
{}
