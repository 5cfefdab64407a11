//! The tests of the commands and of what is read and told of their files, by `mill_run::run`.
//!
//! They stand apart, since a crate with tests of its own is proved twice, with them and without.
#![tactic(auto)]

#[cfg(test)]
mod tests;
