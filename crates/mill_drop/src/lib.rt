//! The drop height: how far a tool can go down over a place until its cutter or holder touches the
//! part.
//!
//! It stands on mill_part, mill_cells and mill_crew, and on mill_sweep, which chooses the contact
//! test. `drop_at` promises the least whole height at which the tool doesn't gouge, exactly, nor at
//! any greater one; a crew's `drop_map` the list of them over a lattice, whoever works it out
//! (`specs/Drops`, `specs/Maps`, `specs/Unique`). `path_drop` gives the path along a row: tips at
//! their drop heights, between which no whole x is under its drop height, or over it by more than a
//! tolerance (`specs/Paths`).
#![tactic(auto)]

mod drop;
mod laws;
mod lift;
mod map;
mod near;
mod once;
mod path;
mod places;
mod search;

pub use drop::drop_at;
pub use laws::{drop_heights_are_unique, one_path, paths_are_halved};
pub use map::DropCrew;
pub use once::drop_once;
pub use path::{MAX_TOLERANCE, path_drop};
