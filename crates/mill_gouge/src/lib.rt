//! Whether a solid passes each triangle of a part on a move, else the first that it doesn't pass;
//! and the least by which a move is to be raised so that its tool passes.
//!
//! It stands on mill_part and mill_cells, and on mill_sweep, which tries one triangle. `clears` is
//! so exactly where the solid passes each triangle by halving; `first_gouge` else names the least
//! that it doesn't pass, with its failing leaf. `tool_clears` is of a cutter and its holder.
//! `least_lift` gives the least whole lift. Only triangles in the move's reach are tried.
//! Definitions: `specs/Gouges`, `specs/Lifts`; the laws: `specs/Laws`.
#![tactic(auto)]

mod bisect;
mod clear;
mod gouge;
mod laws;
mod raise;
mod reach;
mod room;
mod top;
mod under;

pub use bisect::least_lift;
pub use clear::{clears, tool_clears};
pub use gouge::{Gouge, first_gouge};
pub use laws::{
    hundredths_have_room, lifted_is_clear, one_lift, over_part_passes, passes_from_lift,
    passing_needs_no_lift, raising_keeps_pass,
};
pub use room::has_room;
