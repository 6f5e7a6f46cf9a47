//! The cells of all tables, read as the rows of a world, and compared with rows that are known.
//!
//! A row is read if its cells show it exactly, whatever spelling a literal or a text of rights has, and if it is within its limits. Nothing
//! here knows of trees.
#![tactic(auto)]

mod cell;
mod cells;
mod comparing;
mod counter;
mod fault;
mod filling;
mod filling_order;
mod head;
mod in_turn;
mod laws;
mod literal;
mod object;
mod petition;
mod prop;
mod read_row;
mod rows;
mod showing;
mod showing_in_turn;
mod slot;
mod spent_cells;
mod verb;

pub use cells::read_cells;
pub use comparing::compare_cells;
pub use fault::CellFault;
pub use in_turn::read_in_turn;
pub use laws::{one_damage, one_set_of_rows, shown_without_damage};
pub use rows::read_rows;
pub use showing_in_turn::show_in_turn;

/// The rows of each table, as they are listed.
pub use moo_tables::CellLists;
