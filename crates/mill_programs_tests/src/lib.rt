//! The tests of the crates that read and write programs and part texts, by their public calls.
//!
//! They stand apart, since a crate with tests of its own is proved twice, with them and without.
#![tactic(auto)]

#[cfg(test)]
mod ngc;
#[cfg(test)]
mod post;
#[cfg(test)]
mod stl;
#[cfg(test)]
mod tables;
#[cfg(test)]
mod words;
