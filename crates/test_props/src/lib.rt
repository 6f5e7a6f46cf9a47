//! Tests of changes of the tree, by the rows that they touch: what no text shows.
#![tactic(auto)]

#[cfg(test)]
mod properties;
