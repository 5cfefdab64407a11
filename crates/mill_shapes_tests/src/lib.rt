//! The tests of the crates on moves against a part, on how far these are raised, and on drop heights,
//! by their public calls.
//!
//! They stand apart, since a crate with tests of its own is proved twice, with them and without.
#![tactic(auto)]

#[cfg(test)]
mod drop;
#[cfg(test)]
mod gouge;
#[cfg(test)]
mod lift;
#[cfg(test)]
mod sweep;
#[cfg(test)]
mod tables;
