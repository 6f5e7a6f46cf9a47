//! Why a text gives no world, in words for people, with the line that shows it.
//!
//! These words go to standard error. Nothing that is proved rests on them: `moo_load` refuses the text, with its reason.
#![tactic(auto)]

mod bad_lines;
mod damage;
mod finding;
mod lambdamoo;
mod order;
mod said;
mod slots;
mod telling;
mod values;

pub use lambdamoo::{WHAT_TO_DO, holds_lambdamoo, is_lambdamoo};
pub use telling::why_of_fault;
