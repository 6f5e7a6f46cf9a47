//! The rows of a table, compared with rows that were known before.

ghost use Rattle.std.specs.{Prelude.{◌≡◌, true, None, IfOk}, FinMap.{entries}};
ghost use Rattle.moo_cells.specs.Each.{ShowEach};

use crate::fault::RowFault;
use crate::read_row::ReadRow;
use moo_memory::Flat;
use moo_rows::Row as _;
use moo_tables::Version;
use sqlite::Row;
use std::alloc::{AllocError, Global};

/// Whether the cells of a row show this row, under this key. The only error is a lack of memory.
fn shows<R: ReadRow>(
    alloc: Global,
    version: Version,
    cells: &Row,
    key: R::Key,
    row: &R,
) -> Result<bool, AllocError>
    // If the answer is true, the cells show this row, within its limits. Nothing is promised of false.
    ensures { IfOk result (λ shows. shows ≡ true → R.reads version key cells.now row.now) }
{
    match R::read(alloc, version, cells) {
        Ok((number, read)) => Ok(number == key && read.equals(row)),
        Err(RowFault::Unreadable) => Ok(false),
        Err(RowFault::OutOfMemory) => Err(AllocError),
    }
}

/// Whether the rows of a table of this version show all rows of their kind, one for one, in the order of the keys. An `Err` means that
/// memory ran out.
pub(crate) fn show_each<R: ReadRow>(
    alloc: Global,
    version: Version,
    cells: &[Row],
    rows: &Flat,
) -> Result<bool, AllocError>
    // If the answer is true, the first row shows the first entry of the map, and so on, and none is left over on either side.
    ensures { IfOk result (λ show. show ≡ true → ShowEach (R.reads version) cells.now (entries (R.map_of rows.now.maps))) }
{
    let mut last = None;
    for row in cells {
        let Some(next) = R::next_row(rows, last) else {
            return Ok(false);
        };
        if !shows(alloc, version, row, next.0, next.1)? {
            return Ok(false);
        }
        last = Some(next.0);
    }
    Ok(R::next_row(rows, last).is_none())
}
