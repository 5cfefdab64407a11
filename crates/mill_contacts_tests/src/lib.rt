//! The tests of the crates on cutters and their contacts with triangles, by their public calls.
//!
//! They stand apart, since a crate with tests of its own is proved twice, with them and without.
#![tactic(auto)]

#[cfg(test)]
mod contact_ball;
#[cfg(test)]
mod contact_cone;
#[cfg(test)]
mod contact_flat;
#[cfg(test)]
mod contacts;
#[cfg(test)]
mod shape;
