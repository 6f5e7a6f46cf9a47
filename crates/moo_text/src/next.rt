//! What a text of batches consists of.

use moo_world::Batch;

/// What comes next in a text of batches.
#[derive(Drop)]
pub enum Next {
    /// A batch, read whole.
    Batch(Batch),
    /// The number of the first bad line of a batch; its header is line 1.
    Malformed(u32),
    /// The text ends inside a batch.
    Truncated,
    /// Nothing but blank lines is left.
    End,
}
