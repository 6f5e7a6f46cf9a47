//! Cells that were read.

use moo_tables::BLOCK;
use sqlite::Row;
use std::alloc::{AllocError, Global};

/// The cells of rows that were read, up to `BLOCK` rows of them. They are let go a block at a time, so that the memory that they leave is
/// in one piece.
///
/// If the cells of each row were let go alone, the name of the next row would take the place of the text among them, and the rest would
/// stay a gap that is too small for a node of a map: of 200,000 objects 28 MB of gaps.
#[derive(Drop)]
pub(crate) struct SpentCells {
    cells: Vec<Row>,
}

impl SpentCells {
    /// Holds no cells yet.
    pub(crate) fn new(alloc: Global) -> SpentCells {
        SpentCells {
            cells: Vec::new(alloc),
        }
    }

    /// Keeps the cells of one row more. If those of `BLOCK` rows are held, these are let go first. The only error is a lack of memory.
    pub(crate) fn add(&mut self, cells: Row) -> Result<(), AllocError> {
        if self.cells.len() >= BLOCK {
            self.cells.clear();
        }
        self.cells.push(cells)?;
        Ok(())
    }
}
