//! Whether the tables of a World still show its rows.

ghost use Rattle.std.specs.Prelude.{◌≡◌};
ghost use Rattle.moo_store.specs.{Checked.{KeepsTables, Checks}, Moves.{MovesBy}, Runs.{LeavesChecked, fails_by}, World.{store_of}};

use crate::comparing::check_rows;
use crate::fault::StoreFault;
use crate::world::World;
use sqlite::Alter;

/// Whether a check that answered this fails the World: any fault but out of memory does.
fn has_failed(checked: &Result<u64, StoreFault>) -> bool
    ensures { result ≡ fails_by checked.now }
{
    match checked {
        Ok(_) | Err(StoreFault::OutOfMemory) => false,
        Err(_) => true,
    }
}

impl<S: Alter + Drop> World<S> {
    /// Reads the tables again, and answers the number of objects if they show the World's own rows.
    ///
    /// Nothing is written. Store: the store failed, or its tables are no longer ours. Damaged and NewerVersion: the tables show no world,
    /// or another than the World's (`Kind::Mismatch`, with the first row in which they differ). Each of the three fails the World.
    /// OutOfMemory: memory ran out, and the World works on. Closed: the World had failed.
    pub fn check(&mut self) -> Result<u64, StoreFault>
        // Ok only if the tables show the World's own rows. A damage is told only if the tables have it, or if they show other rows than the
        // World's. A fault of the store has a cause.
        ensures checks { Checks self.old.rows.maps (store_of S.Store self.old) (store_of S.Store self.new) result }
        // Every fault but out of memory fails the World where it is, and a failed World changes no more.
        ensures moves { MovesBy S.Store self.old self.new (λ from to. LeavesChecked from result to) }
        // The rows, the tables and what a crash leaves stay as they are.
        ensures keeps { (self.new.rows ≡ self.old.rows) × KeepsTables (store_of S.Store self.old) (store_of S.Store self.new) }
    {
        if self.failed {
            return Err(StoreFault::Closed);
        }
        let checked = check_rows(self.alloc, &mut self.connection, &self.rows);
        self.failed = has_failed(&checked);
        checked
    }
}
