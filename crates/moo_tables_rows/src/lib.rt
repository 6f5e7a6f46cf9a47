//! The SQL tables of a world, as functions from keys to cells, and the writing of their rows, a statement for each.
//!
//! Nothing here knows what a cell means.
#![tactic(auto)]

mod cells;
mod counter;
mod head;
mod object;
mod our_table;
mod petition;
mod prop;
mod slot;
mod statement;
mod table_row;
mod verb;
mod version;
mod writing;

pub use cells::{CellChanges, Expected};
pub use counter::{PETITION_HEAD, put_counter, put_next_petition};
pub use head::{HEAD, put_head};
pub use object::{OBJECT, ObjectCells};
pub use our_table::OurTable;
pub use petition::{PETITION, PetitionCells};
pub use prop::{PROP, PropCells};
pub use slot::{SLOT, SLOT2, SlotCells};
pub use statement::Run;
pub use table_row::TableRow;
pub use verb::{VERB, VerbCells};
pub use version::Version;
pub use writing::write_rows;
