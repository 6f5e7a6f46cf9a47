//! What a table of ours is, whichever it is.

use sqlite_schema::schema::Kind;

/// A table of ours, as a database has it. It is copied where a field of a constant is taken.
#[derive(Clone, Copy)]
pub struct OurTable {
    pub name: &'static str,
    /// Which tree of the database has its rows. The tree after it is the index of a key of two columns.
    pub tree: u32,
    /// Whether its key is the first two columns. Else it is the first.
    pub is_paired: bool,
    /// The name and the type of each column.
    pub columns: &'static [(&'static str, Kind)],
    /// The statement that makes it.
    pub create: &'static str,
    /// The query of its rows, in the order of their keys.
    pub read: &'static str,
}
