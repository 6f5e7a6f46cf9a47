//! What is told of the items of a text beside their replies.

use crate::marks::Marks;
use crate::reply::Answer;

/// Notes are told how the items of a text were answered, for messages. What they do then, no contract says.
pub trait Notes {
    /// Takes note of an item of a text, once its answer is written: on which lines it is, and its answer. It isn't called of an item whose
    /// answer can't be written.
    fn note(&mut self, marks: &Marks, answer: &Answer);
}
