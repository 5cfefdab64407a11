//! The tests of the crates on triangles against a cylinder, on the part and on its cells, by their
//! public calls.
//!
//! They stand apart, since a crate with tests of its own is proved twice, with them and without.
#![tactic(auto)]

#[cfg(test)]
mod cells;
#[cfg(test)]
mod geom;
#[cfg(test)]
mod part;
