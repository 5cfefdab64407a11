//! The tests of the crates on the stock and its surface, by their public calls.
//!
//! They stand apart, since a crate with tests of its own is proved twice, with them and without.
#![tactic(auto)]

#[cfg(test)]
mod row;
#[cfg(test)]
mod runs;
#[cfg(test)]
mod stock;
#[cfg(test)]
mod tables;
