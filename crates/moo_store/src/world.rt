//! A World: the rows in memory, over the tables of a store.

use crate::committing::commit_cells;
use crate::fault::StoreFault;
use crate::judging::reply_or_changes;
use crate::printing::print_changes;
use moo_batch::Witness;
use moo_memory::{Changes, Flat, apply_changes};
use moo_rows::{Rows, object_count};
use moo_tables::CellChanges;
use moo_text::Reply;
use moo_world::{Answers, Batch};
use sqlite::{Alter, Connection};
use std::alloc::Global;
use std::marker::Model;

/// The rows of a database in memory, and the connection whose tables show them.
///
/// A World fails at a fault of its store, and if memory runs out after a commit. It then answers Closed to every call but
/// `into_connection`. What was committed stays.
///
/// Contracts say at which place a World is (`Place`): it works at a moment, which is its rows with the cells that show them; it has failed
/// at one; or its store failed between two.
#[derive(Drop)]
pub struct World<S: Alter> {
    pub(crate) alloc: Global,
    pub(crate) connection: Connection<S>,
    pub(crate) rows: Flat,
    pub(crate) failed: bool,
}

impl<S: Alter> Model for World<S> {
    ghost use Rattle.std.specs.Prelude.{◌≡◌, false};
    ghost use Rattle.moo_world.specs.Rows.{IsGood};
    ghost use Rattle.moo_store.specs.Kept.{World as Kept, world_code};

    ghost Value = { Kept S };

    ghost coded = { world_code S.code };

    ghost view = { λ w. record { connection = w.connection; rows = w.rows; failed = w.failed } };

    ghost invariant = { λ w. (w.connection.in_transaction ≡ false) × (w.failed ≡ false → IsGood w.rows.maps) };
}

impl<S: Alter + Drop> World<S> {
    ghost use Rattle.std.specs.Prelude.{◌≡◌, ◌<◌, ◌^◌, false, IsTrue, length, Some, IfOk, IfErr};
    ghost use Rattle.std.specs.Prelude.{IfSome, IfNone, IsErrOf, IsOkAnd, MatchResult, Ok};
    ghost use Rattle.sqlite.specs.State.{HasCleanDisk};
    ghost use Rattle.sqlite.specs.Held.{state};
    ghost use Rattle.moo_rows.specs.Maps.{Maps};
    ghost use Rattle.moo_world.specs.Rows.{IsGood};
    ghost use Rattle.moo_world.specs.ObjectLists.{objects_of};
    ghost use Rattle.moo_memory.specs.Changes.{AreChanges};
    ghost use Rattle.moo_store.specs.Printed.{Prints};
    ghost use Rattle.moo_store.specs.Committing.{CommitsTo, CommitsInto};
    ghost use Rattle.moo_store.specs.Moves.{Stands, MovesBy, RunsAt, MayReplyAsked, FailsRun};
    ghost use Rattle.moo_store.specs.Moment.{Moment, HasAtRest};
    ghost use Rattle.moo_store.specs.Place as place;
    ghost use Rattle.moo_batch.specs.Ticks.{NoneComeBack};
    ghost use Rattle.moo_store.specs.Stopped.{KeepsFaults};
    ghost use Rattle.moo_store.specs.Seeing.{HasSeenReply};
    ghost use Rattle.moo_store.specs.Stopping.{says_accepted};
    ghost use Rattle.moo_store.specs.Text.{answer_to};
    ghost use Rattle.moo_store.specs.World.{store_of, state_of_world};
    ghost use Rattle.moo_text.specs.declared.reply.Answer.TheVariants as answer;

    /// The World of good rows, over a connection in no transaction. Nothing is read or written: whether the tables show these rows is for
    /// `check` to test. The tables of a World that `create_in`, `load_in` or `adopt` makes do.
    pub fn over(alloc: Global, connection: Connection<S>, rows: Flat) -> World<S>
        // The connection is in no transaction.
        requires outside { connection.in_transaction ≡ false }
        // The rows are good: sound rows of a well formed world, and petitions as they may be beside it.
        requires good { IsGood rows.maps }
        ensures is { result ≡ record { connection = connection; rows = rows; failed = false } }
        // It works at any moment of these rows, if the connection has that moment at rest, or its disk didn't return what was written.
        ensures stands { (m : Moment) → m.rows ≡ rows.maps →
            (HasCleanDisk (state S.Store connection) → HasAtRest (state S.Store connection) m) → Stands S.Store result (place.Works m) }
    {
        World {
            alloc,
            connection,
            rows,
            failed: false,
        }
    }

    /// Commits the changes of an accepted batch, and then changes the rows. Answers `accepted` with the number and the answers. Store:
    /// the store failed, and the World with it. If memory runs out after the commit, the World has failed, and the batch is accepted.
    fn commit(
        &mut self,
        answers: Answers,
        changes: Changes,
        cells: &CellChanges,
    ) -> Result<Reply, StoreFault>
        // The World works.
        requires works { self.old.failed ≡ false }
        // The cells are those of the changes of the World's rows. The number of the next petition is among them only if it changed.
        requires printed { Prints (Some self.old.rows.maps.head.next_petition) self.old.rows.maps cells.now changes }
        // The number of the last batch fits a cell, which is a signed number of 64 bits.
        requires limit { cells.now.head.seq < 2 ^ 63 }
        // The changes lead to rows of a world.
        requires changes { (next : Maps) × AreChanges self.old.rows.maps next changes × IsGood next }
        // If there is a reply, the World works at the next moment, of these rows, or failed there; else its store failed between the two.
        // All that stays keeps its cells, if these are known, of the present version, and show the rows.
        ensures moves { (rows : Maps) → AreChanges self.old.rows.maps rows changes → IsGood rows →
            MovesBy S.Store self.old self.new (λ from to. CommitsTo answers changes rows from result to) }
        // If there is a reply, the cells were committed to the store; else the store failed, for a cause: its tables, if it is open still,
        // are those before, and a crash leaves those or the changed ones. Rows that no change names stay, and so does the table that isn't
        // read. It is said of tables of the present version at rest, and of a disk that returned what was written (`CommitsCells`).
        ensures commits { CommitsInto cells.now (store_of S.Store self.old) (store_of S.Store self.new) result }
        // A fault is Closed (by `commits` it never is), or it is Store. If the World's cells are known and the disk returned what was
        // written, what stopped the store is one of the causes that stop any change (`StopsChange`).
        ensures fault { IfErr result (FailsRun S.Store self.old self.new) }
        // The count of the disk's calls that failed gets no lower, and the connection allows as many steps of SQL as before.
        ensures kept { KeepsFaults (store_of S.Store self.old) (store_of S.Store self.new) }
        // A reply says that the batch is accepted.
        ensures accepted { IfOk result (λ reply. reply ≡ Reply.Accepted changes.head.seq answers) }
    {
        if let Err(error) = commit_cells(&mut self.connection, cells) {
            self.failed = true;
            return Err(StoreFault::Store(error));
        }
        let seq = changes.head.seq;
        if apply_changes(&mut self.rows, changes).is_err() {
            self.failed = true;
        }
        Ok(Reply::Accepted { seq, answers })
    }

    /// Runs one batch, and commits it if it is accepted. If it is refused, the witness sees why, once. The faults: Store if the store
    /// failed; Closed if the World had failed.
    #[tactic(auto, using(crate::proofs::Moments::faults_same))]
    pub fn run_one<N: Witness>(
        &mut self,
        batch: &Batch,
        witness: &mut N,
    ) -> Result<Reply, StoreFault>
        // A reply is that of the verdict at the moment where the World was; or `NoMemory`, but only to a batch whose calls are run. Only an
        // accepted batch leads on from the moment, to a next one (`LeadsBy`): of the state that the batch is judged to leave, with all
        // numbers kept, and the cells of all that stays. There the World works or has failed; if the store failed, it is between the two. A
        // World that had failed stays as it was, and the fault is Closed.
        ensures moves { MovesBy S.Store self.old self.new (λ from to. RunsAt from batch.now (answer_to result) to) }
        // A reply that isn't `accepted` leaves the World as it was.
        ensures still { IfOk result (λ reply. says_accepted (answer.Replied reply) ≡ false → self.new ≡ self.old) }
        // A fault is Closed, or it is Store. If the World's cells are known and the disk returned what was written, what stopped the store
        // is one of the causes that stop any change (`StopsChange`).
        ensures fault { IfErr result (FailsRun S.Store self.old self.new) }
        // The count of the disk's calls that failed gets no lower, and the connection allows as many steps of SQL as before.
        ensures kept { KeepsFaults (store_of S.Store self.old) (store_of S.Store self.new) }
        // Of a refused batch the witness has seen the refusal; of any other, and at a fault, nothing.
        ensures seen { MatchResult result
            (λ reply. HasSeenReply N.sees self.old.rows.maps batch.now reply (N.kept witness.old) (N.kept witness.new))
            (λ _. N.kept witness.new ≡ N.kept witness.old) }
    {
        if self.failed {
            return Err(StoreFault::Closed);
        }
        match reply_or_changes(self.alloc, &self.rows, batch, witness) {
            Ok((answers, changes)) => match print_changes(self.alloc, &self.rows, &changes) {
                Ok(cells) => self.commit(answers, changes, &cells),
                Err(_) => Ok(Reply::NoMemory),
            },
            Err(reply) => Ok(reply),
        }
    }

    /// What a batch would be answered at present, with the present number. Nothing changes. If it would be refused, the witness sees why,
    /// once. The only fault is Closed.
    #[tactic(auto, using(moo_batch::proofs::Ticking::as_before))]
    pub fn ask<N: Witness>(&self, batch: &Batch, witness: &mut N) -> Result<Reply, StoreFault>
        // While the World works, the reply is that to the verdict on the batch, with the present number; or `NoMemory`, if its calls run.
        ensures asks { self.now.failed ≡ false → IsOkAnd result (MayReplyAsked (state_of_world self.now) batch.now) }
        // The witness has no more ticks left than before.
        ensures ticks { NoneComeBack (N.left witness.old) (N.left witness.new) }
        // If the World had failed, the fault is Closed.
        ensures closed { IsTrue self.now.failed → IsErrOf result StoreFault.Closed }
        // Of a refused batch the witness has seen the refusal, and of any other nothing.
        ensures seen { IfOk result (λ reply.
            HasSeenReply N.sees self.now.rows.maps batch.now reply (N.kept witness.old) (N.kept witness.new)) }
    {
        if self.failed {
            return Err(StoreFault::Closed);
        }
        match reply_or_changes(self.alloc, &self.rows, batch, witness) {
            Ok((answers, _changes)) => Ok(Reply::Accepted {
                seq: self.rows.head().seq,
                answers,
            }),
            Err(reply) => Ok(reply),
        }
    }

    /// The rows; None if the World has failed.
    pub fn good_rows(&self) -> Option<&Flat>
        // They are the World's own good rows, and it hasn't failed.
        ensures rows { IfSome result (λ rows. (rows.now ≡ self.now.rows) × IsGood rows.now.maps × (self.now.failed ≡ false)) }
        // There are none only if the World has failed.
        ensures failed { IfNone result (IsTrue self.now.failed) }
    {
        if self.failed { None } else { Some(&self.rows) }
    }

    /// The number of the batches that were accepted, 0 to 9,223,372,036,854,775,807. The only fault is Closed.
    pub fn seq(&self) -> Result<u64, StoreFault>
        // If the World hasn't failed, it is the number that its state has.
        ensures number { self.now.failed ≡ false → result ≡ Ok (state_of_world self.now).seq }
        // If the World had failed, the fault is Closed.
        ensures closed { IsTrue self.now.failed → IsErrOf result StoreFault.Closed }
    {
        if self.failed {
            return Err(StoreFault::Closed);
        }
        Ok(self.rows.head().seq)
    }

    /// The number of objects. Takes no memory. The only fault is Closed.
    pub fn object_count(&self) -> Result<u64, StoreFault>
        // While the World works, it is how many objects its state has.
        ensures count { self.now.failed ≡ false → result ≡ Ok (length (objects_of (state_of_world self.now).world)) }
        // If the World had failed, the fault is Closed.
        ensures closed { IsTrue self.now.failed → IsErrOf result StoreFault.Closed }
    {
        if self.failed {
            return Err(StoreFault::Closed);
        }
        Ok(object_count(&self.rows))
    }

    /// The connection, with its tables.
    pub fn into_connection(self) -> Connection<S>
        ensures is { result ≡ self.connection }
        // It is in no transaction.
        ensures outside { (state S.Store result).in_transaction ≡ false }
    {
        let World { connection, .. } = self;
        connection
    }
}
