//! Exact tests of a triangle against a vertical cylinder over a level, and what bounds a triangle.
//!
//! It stands on mill_base. Of a triangle's offsets from a cylinder's axis, degenerate ones too,
//! `touches_triangle` decides whether some point over the level is strictly nearer than the radius,
//! and `reaches_cylinder` the closed case; `side` and `box_side` tell where along an axis a clear
//! triangle stays clear. `box_gap` and `highest` bound a triangle by its box, `extent_over` by what
//! it has over a height. Definitions: `specs/Contacts`, `specs/Reaches`, `specs/Sides`, `specs/Gaps`,
//! `specs/Forms`, `specs/Extents`; `specs/Widths` says how great the compared numbers can be.
#![tactic(auto)]

mod cylinder;
mod extent;
mod gap;
mod level;
mod offset;
mod plane;
mod reach;
mod segment;
mod spot;
mod strip;
mod touch;
mod triangle;
mod turn;

pub use cylinder::{all_from, all_to, box_side};
pub use extent::{Extent, extent_over};
pub use gap::{box_gap, highest};
pub use level::touches_on_level;
pub use offset::{Offset, offset_from};
pub use reach::reaches_cylinder;
pub use segment::touches_segment;
pub use spot::{Spot, spot_below};
pub use strip::side;
pub use touch::{Axis, Side, Touch};
pub use triangle::{is_pierced, touches_triangle};
pub use turn::turned;
