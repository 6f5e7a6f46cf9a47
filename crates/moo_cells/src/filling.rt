//! The rows of a table, put into maps a block after another while the table is read.

ghost use Rattle.std.specs.Prelude.{◌≡◌, List, ◌++◌, IfSome, true};
ghost use Rattle.sqlite.specs.Order.{Row as Cells};
ghost use Rattle.moo_rows.specs.Maps.{Maps};
ghost use Rattle.moo_tables_rows.specs.declared.version.Version.{Version};
ghost use Rattle.moo_cells.specs.{Filled.{FillsInSomeOrder, FillsMap}, Holding.{KeepsTable}};

use crate::filling_order::in_filling_order;
use crate::read_row::{ReadRow, take_row};
use moo_memory::Flat;
use moo_tables::{TakeRows, Version};
use sqlite::Row;
use std::alloc::Global;
use std::marker::PhantomData;

/// Puts what each of these rows shows into the maps, in this order. False if one shows no row within its limits, or if memory ran out.
fn put_each<R: ReadRow>(alloc: Global, version: Version, cells: &[Row], rows: &mut Flat) -> bool
    // If the kind of rows has the laws of `KeepsTable`: maps that were filled from the rows that were read before are then filled from
    // these rows too.
    ensures { KeepsTable R.order (R.reads version) R.apart R.in_order (R.holds version) (R.unread version) R.whole R.tells →
        (before : Maps) (read : List Cells) →
        FillsMap R.map_of R.with_map R.apart (R.holds version) (R.reads version) before read rows.old.maps → result ≡ true →
        FillsMap R.map_of R.with_map R.apart (R.holds version) (R.reads version) before (read ++ cells.now) rows.new.maps }
{
    for row in cells {
        match take_row::<R>(alloc, version, row, rows) {
            Ok(()) => {}
            Err(_) => return false,
        }
    }
    true
}

/// Puts what each row of a block shows into the maps, in the order that fills their nodes. False if one shows no row within its limits,
/// or if memory ran out.
fn put_block<R: ReadRow>(alloc: Global, version: Version, block: Vec<Row>, rows: &mut Flat) -> bool
    // If the kind of rows has the laws of `KeepsTable`: maps that were filled from the rows that were read before, in some order, are
    // then filled from this block too.
    ensures { KeepsTable R.order (R.reads version) R.apart R.in_order (R.holds version) (R.unread version) R.whole R.tells →
        (before : Maps) (read : List Cells) →
        FillsInSomeOrder (FillsMap R.map_of R.with_map R.apart (R.holds version) (R.reads version)) before read rows.old.maps →
        result ≡ true →
        FillsInSomeOrder (FillsMap R.map_of R.with_map R.apart (R.holds version) (R.reads version)) before (read ++ block.items)
        rows.new.maps }
{
    let ordered = in_filling_order(block);
    put_each::<R>(alloc, version, &ordered, rows)
}

/// A taker that puts the rows of a table into the maps of a world. The cells of a block are let go together once all are read, so that the
/// memory that they leave is in one piece (`SpentCells`).
#[derive(Drop)]
pub(crate) struct Filling<R> {
    alloc: Global,
    version: Version,
    rows: Flat,
    of: PhantomData<R>,
}

impl<R: ReadRow> Filling<R> {
    /// Begins with these rows, and a table of this version.
    pub(crate) fn new(alloc: Global, version: Version, rows: Flat) -> Filling<R>
        ensures version { result.version ≡ version }
        ensures rows { result.rows ≡ rows }
    {
        Filling {
            alloc,
            version,
            rows,
            of: PhantomData,
        }
    }

    /// The rows with all of the table; None if a block of it couldn't be taken (`whole` is false).
    pub(crate) fn into_rows(self, whole: bool) -> Option<Flat>
        ensures { IfSome result (λ rows. (whole ≡ true) × (rows ≡ self.rows)) }
    {
        let Filling { rows, .. } = self;
        if whole { Some(rows) } else { None }
    }
}

impl<R: ReadRow> TakeRows for Filling<R> {
    ghost took = { λ first cells now. (now.version ≡ first.version) × (KeepsTable R.order (R.reads first.version) R.apart R.in_order
        (R.holds first.version) (R.unread first.version) R.whole R.tells →
        FillsInSomeOrder (FillsMap R.map_of R.with_map R.apart (R.holds first.version) (R.reads first.version)) first.rows.maps cells
        now.rows.maps) };

    fn take(&mut self, block: Vec<Row>) -> bool {
        put_block::<R>(self.alloc, self.version, block, &mut self.rows)
    }
}
