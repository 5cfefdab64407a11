//! The tests of the crates on how workers share pieces of work, by their public calls.
//!
//! They stand apart, since a crate with tests of its own is proved twice, with them and without.
#![tactic(auto)]

#[cfg(test)]
mod machine;
#[cfg(test)]
mod runs;
#[cfg(test)]
mod seats;
#[cfg(test)]
mod shared;
