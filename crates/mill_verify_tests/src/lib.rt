//! The tests of the crate on the verdict, by its public calls.
//!
//! They stand apart, since a crate with tests of its own is proved twice, with them and without.
#![tactic(auto)]

#[cfg(test)]
mod block;
#[cfg(test)]
mod list;
#[cfg(test)]
mod program;
#[cfg(test)]
mod samples;
