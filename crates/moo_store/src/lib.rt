//! A world kept in the tables of a store.
//!
//! Its rows are read, compared, printed and committed here too.
#![tactic(auto)]

mod adopting;
mod answering;
mod apply;
mod ask;
mod checking;
mod columns;
mod committing;
mod comparing;
mod course;
mod creating;
mod dumping;
mod each;
mod fault;
mod judging;
pub mod laws;
mod loading;
mod migrating;
mod opening;
mod printing;
mod quiet;
mod reading;
mod rehearsing;
mod reopening;
mod surface;
mod tally;
mod world;

pub use adopting::adopt;
pub use apply::apply_until;
pub use ask::ask_text;
pub use course::Course;
pub use creating::create_in;
pub use dumping::DumpFault;
pub use fault::StoreFault;
pub use loading::load_in;
pub use quiet::NoNotes;
pub use rehearsing::rehearse_text;
pub use reopening::a_crash_is_taken_up;
pub use surface::apply_text;
pub use tally::Tally;
pub use world::World;
