//! Tests of values and their literals, each by what it shows to others.
#![tactic(auto)]

#[cfg(test)]
mod values;
