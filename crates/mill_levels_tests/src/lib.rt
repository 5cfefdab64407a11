//! The tests of the crates on pushes along a line and on waterlines, by their public calls.
//!
//! They stand apart, since a crate with tests of its own is proved twice, with them and without.
#![tactic(auto)]

#[cfg(test)]
mod level;
#[cfg(test)]
mod push;
