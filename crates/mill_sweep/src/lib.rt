//! Which solids of a tool pass a triangle or a point at every moment of a move, by halving the move
//! into leaves.
//!
//! A dogleg, whose tip may be anywhere in the box of its two ends, isn't halved, but judged by that
//! box (`specs/Passing`).
//!
//! It stands on `mill_base`, `mill_shape` and the contact crates, and says by mill_cells when boxes
//! meet. `passes_tri` is so exactly where the halving says (`specs/Leaves`, `specs/Halving`), for a
//! solid on the move of its own tip (`specs/Solids`); passing means that nothing is inside wherever
//! the tip may be (`specs/Moments`), and a failing leaf is blocked, and has a reach of at most 2
//! units where the move is straight. `reach_box` says which triangles need to be tried at all
//! (`specs/Reach`).
#![tactic(auto)]

mod beside;
mod contact;
mod diagonal;
mod ends;
mod gap;
mod halving;
mod leaf;
mod leaf_span;
mod leaf_test;
mod moments;
mod move_depth;
mod reach;
mod solid;
mod sweep;

pub use contact::holds_some;
pub use ends::{end_at, nearest};
pub use halving::{first_block, first_block_point, passes_point, passes_tri};
pub use leaf::{Leaf, Span};
pub use leaf_span::span;
pub use moments::{
    failing_is_blocked, far_passes, halving_is_clear, halving_keeps_point, outer_holds,
    vertical_passes, vertical_passes_point,
};
pub use move_depth::depth;
pub use reach::{out_of_reach_passes, reach_box};
pub use sweep::Sweep;
