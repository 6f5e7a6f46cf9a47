//! Texts of batches: how they are cut and read, and the lines of their replies.
#![tactic(auto)]

mod ahead;
mod call_text;
mod fault;
mod feed;
mod header;
mod line;
mod line_fault;
mod lines;
mod literal;
mod marks;
mod next;
mod notes;
mod reply;
mod surface;
pub mod text_laws;
mod writing;

pub use call_text::{call_of, call_or_fault, values_at};
pub use fault::{TextFault, WriteFault};
pub use feed::Feed;
pub use header::{Header, digit_value, object_of, read_header};
pub use line::{LONGEST_LINE, is_end_line, is_within_line, next_word};
pub use line_fault::LineFault;
pub use lines::LONGEST_TEXT;
pub use marks::Marks;
pub use next::Next;
pub use notes::Notes;
pub use reply::{Answer, Reply, print_answer};
pub use surface::{CallFault, print_reply, read_call};
pub use writing::{put_all, put_answer};
