//! The exact contact of a cone cutter and a triangle.
//!
//! It stands on mill_geom, whose offsets, boxes and laws of hits it uses, and on mill_base, whose
//! specs/Contact defines a touch. `touch` and `is_inside` promise what mill_contact_ball's do. The
//! cutter is a cylinder over the height of its rim and a cone under it; in each zone one quadratic
//! form decides, so no root is compared. specs/Cones, specs/Quadratics, specs/Clears and
//! specs/Positions define what is compared, specs/Widths how great it can be.
#![tactic(auto)]

mod clear;
mod cone;
mod corner;
mod edge;
mod quadratic;
mod side;

pub use cone::{is_inside, touch};
