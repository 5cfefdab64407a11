//! The surface of the stock: the tops of neighbouring columns, joined to triangles.
//!
//! It stands on `mill_job` for where columns stand and on `mill_dexel` for the rows. It promises exactly
//! the triangles that `specs/Surfaces.antt` defines by the rows' tops, and so by the tops after the moves
//! that have made these rows; where they would be too many for a part, it tells how many.
#![tactic(auto)]

mod fault;
mod surfaces;

pub use fault::SurfaceFault;
pub use surfaces::{surface, triangle_count};
