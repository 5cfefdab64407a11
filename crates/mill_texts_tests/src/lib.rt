//! The tests of the crates on jobs, lists, words of the command line, files and numbers, by their
//! public calls.
//!
//! They stand apart, since a crate with tests of its own is proved twice, with them and without.
#![tactic(auto)]

#[cfg(test)]
mod base;
#[cfg(test)]
mod command;
#[cfg(test)]
mod decimal;
#[cfg(test)]
mod io;
#[cfg(test)]
mod job;
#[cfg(test)]
mod list;
#[cfg(test)]
mod machine;
#[cfg(test)]
mod tables;
