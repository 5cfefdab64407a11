//! Circular arcs as chords: whether an arc is one, the chords that stand for it, and how near to it
//! they stay.
//!
//! It stands on mill_base and, for its lemmas on roots, on mill_shape. An arc is given from its
//! centre, in its plane and in nanometres, so nothing of it is rounded before its chords are known.
//! `Arc::is_sound` decides whether start and end lie on one circle, `Arc::chords` parts the turn
//! between them (`specs/Chords`), and `place` and `height` round what is on a chord to whole units
//! (`specs/Places`). The laws say that the chords are the turn (`specs/Turns`), and that each
//! moment of a chord has its points of the arc, and each point its moment (`specs/Rings`).
#![tactic(auto)]

mod arc;
mod chords;
mod laws;
mod places;
mod vectors;

pub use arc::{Arc, MAX_END, MAX_START, MAX_TOLERANCE};
pub use chords::{Chord, MAX_HALVINGS};
pub use laws::{
    chords_are_turn, helix_is_near, last_height_is_end, moment_is_near, moment_is_near_in_space,
    parts_are_turn, point_has_moment,
};
pub use places::{height, nanometres, place};
pub use vectors::Vector;

#[cfg(test)]
mod tests;
