//! Where a push-cutter looks first for the ends of a triangle's stretch.
//!
//! It stands on mill_base. `Ends` keeps where the ends of each triangle's stretch were found in the
//! pushes before, and `Aims` tells where they are expected in the next one. What they hold promises
//! nothing: mill_push, which uses them, finds the same runs whatever they say. So nothing is promised
//! here but how many touches an aim allows.
#![tactic(auto)]

mod ends;

pub use ends::{Aim, Aims, Ends};
