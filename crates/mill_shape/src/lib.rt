//! Which points are strictly inside a cutter, and the height to which a cutter cuts a column.
//!
//! It stands on mill_base, whose specs/Cutters and specs/Sizes define both. `inside` decides the
//! first and `cut_height` computes the second exactly, in whole numbers; `holds_over` is the law
//! that a cutter goes upward without end. proofs/Holding says where a held point can stand, and
//! proofs/CutHeights that the height is the greatest that the cutter leaves.
#![tactic(auto)]

mod arithmetic;
mod height;
mod laws;
mod resize;
mod solid;

pub use height::{HIGHEST_TIP, cut_height};
pub use laws::holds_over;
pub use resize::{shrink, widen};
pub use solid::inside;
