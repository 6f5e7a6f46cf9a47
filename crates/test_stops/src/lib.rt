//! Tests of worlds in two files in memory, one of which stops at some call, and of what is then found.
#![tactic(auto)]

#[cfg(test)]
mod files;
#[cfg(test)]
mod migration;
#[cfg(test)]
mod mismatch;
#[cfg(test)]
mod rounds;
#[cfg(test)]
mod stops;
