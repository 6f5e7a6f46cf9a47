//! Tests of drafts over rows, by what they show to others.
#![tactic(auto)]

#[cfg(test)]
mod drafts;
