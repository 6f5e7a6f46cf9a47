//! What is done with a world in two files that may stop at some call, and what is seen of it. Here alone a store is called, so that
//! the tests of `test_stops` see texts.
#![tactic(auto)]

mod visits;

pub use visits::{Fused, Seen, Task, visit_fused};
