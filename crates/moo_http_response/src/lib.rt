//! What is answered to a request: what came of it, as a value, and the bytes of the response to that, whose body is JSON.
#![tactic(auto)]

mod answer;
mod bodies;
mod each_body;
mod entry;
mod head_whys;
mod limits;
mod look_body;
mod outcome;
mod page;
mod page_body;
mod replies;
mod respond;
mod response;
mod text;
mod told;
mod whys;

pub use answer::answer_text;
pub use entry::{Entries, Entry};
pub use outcome::RequestOutcome;
pub use page::Page;
pub use replies::Replies;
pub use text::Text;
pub use told::{Told, tell};
