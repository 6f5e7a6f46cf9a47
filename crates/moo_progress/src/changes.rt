//! What the disks of one world know of each other.

use std::cell::Cell;

/// How often the files of a world were changed. Their disks share it, since a commit writes the log alone and reads the database file: a
/// change of one file ends the reading of the other too.
#[derive(Drop)]
pub struct DiskChanges {
    count: Cell<u64>,
}

impl DiskChanges {
    /// No change was made yet.
    pub fn new() -> DiskChanges {
        DiskChanges {
            count: Cell::new(0),
        }
    }

    /// Counts one change more.
    pub(crate) fn note(&self) {
        self.count.set(self.count.get().wrapping_add(1));
    }

    /// How many changes were made. The number begins anew after 2^64.
    pub(crate) fn count(&self) -> u64 {
        self.count.get()
    }
}
