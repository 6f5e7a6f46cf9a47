//! Laws of the model: what holds of any batches, one after another, whoever sends them; and what calls tell.
//!
//! Of the crates above only `moo_run_laws` is proved anew after a new law.
#![tactic(auto)]

mod batches;
mod guarded;
mod numbers;
mod questions;
mod quotas;
mod reasons;
mod refusals;
mod rights;

pub use batches::reading_batches_tell_no_more;
pub use guarded::batches_tell_no_more;
pub use numbers::object_numbers_stay;
pub use questions::questions_tell_no_more;
pub use quotas::kept_quotas_move;
pub use reasons::reasons_tell_no_more;
pub use refusals::refusals_tell_no_more;
pub use rights::nobody_rises;
