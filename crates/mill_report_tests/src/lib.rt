//! The tests of the list of all findings, by its public call.
//!
//! They stand apart, since a crate with tests of its own is proved twice, with them and without.
#![tactic(auto)]

#[cfg(test)]
mod report;
#[cfg(test)]
mod samples;
