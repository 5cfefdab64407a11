//! What the control of a machine makes of a program's numbers: their units, what is known of the
//! tool's place, under which offsets it is named, and the moves of drilling cycles.
//!
//! It stands on mill_base and, for a program's numbers, on mill_words. Each part is one table of a
//! machine's rules: `specs/Lengths`, `specs/Unrounded`, `specs/Places`, `specs/Offsets`,
//! `specs/Planes` and `specs/Holes`, whose moves `specs/Drilled` speaks of.
#![tactic(auto)]

mod hole;
mod lengths;
mod offsets;
mod place;
mod series;
mod turn;
mod unrounded;

pub use hole::{Hole, count_hole, drill, hole_goes_on};
pub use lengths::{LengthUnit, exact, is_whole, rounded, rounded_is_near};
pub use offsets::{Named, Offsets, ToolLength};
pub use place::{Height, Naming, Place};
pub use series::{Cycle, Return, Series};
pub use turn::{Plane, Turn};
pub use unrounded::{Coordinate, finer, higher, is_nano_number};
