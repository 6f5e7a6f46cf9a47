//! The law of the program, of any list of runs.

ghost use Rattle.std.specs.{Prelude.{◌≡◌, ◌+◌, ℕ, ◌≤◌, List, length}, List.{filter}};
ghost use Rattle.sqlite_wal.specs.Recovery.{Image};
ghost use Rattle.moo_world.specs.{declared.call.Batch.{Batch}, Judge.{after, is_for}, Rows.{IsGood}};
ghost use Rattle.moo_store.specs.Moment.{Moment, state_of_moment};
ghost use Rattle.moo_files.specs.Contents.{HoldsMoment};
ghost use Rattle.moo_run_laws.specs.{FileRuns.{FileRun}, InTurn.{RunInTurn, LeadInTurn}};
ghost use Rattle.moo_laws.specs.NobodyRises.{NoWizardActs, KeepsRights};

use moo_run::HasRun;

/// The program runs over a file again and again, each time over what is found after the run before: any words, with any input, over any
/// host. Each run may be stopped, or close its file, as in `runs_lead_on`, which is the law of two runs.
pub fn runs_in_turn<S: HasRun>()
    // The runs have one history: batches lead, run by run, from the moment that the file held, with its cells, to the one that it holds in
    // the end.
    ensures history { (image found : Image) (runs : List (FileRun S.HasRun S.Disk.Disk)) (m : Moment) → RunInTurn image runs found →
        HoldsMoment image m → (end : Moment) × HoldsMoment found end × (batches : List Batch) × LeadInTurn m runs batches end }
    // The state in the end is the one that the batches make of the first state, one after another.
    ensures state { (runs : List (FileRun S.HasRun S.Disk.Disk)) (m end : Moment) (batches : List Batch) →
        LeadInTurn m runs batches end → state_of_moment end ≡ after (state_of_moment m) batches }
    // The number of the state grows by one for each of the batches.
    ensures counts { (runs : List (FileRun S.HasRun S.Disk.Disk)) (m end : Moment) (batches : List Batch) →
        LeadInTurn m runs batches end → (state_of_moment end).seq ≡ (state_of_moment m).seq + length batches }
    // At most one of the batches is meant for a number: a batch with `at` acts at most once in such a history.
    ensures once { (runs : List (FileRun S.HasRun S.Disk.Disk)) (m end : Moment) (batches : List Batch) (number : ℕ) →
        LeadInTurn m runs batches end → length (filter (is_for number) batches) ≤ 1 }
    // If none of the batches is a wizard's at its turn, nobody rises.
    ensures rises { (runs : List (FileRun S.HasRun S.Disk.Disk)) (m end : Moment) (batches : List Batch) → IsGood m.rows →
        LeadInTurn m runs batches end → NoWizardActs (state_of_moment m) batches →
        KeepsRights (state_of_moment m) batches (state_of_moment end) }
{}
