//! The part: its triangles, its greatest height, and how high it covers a column.
//!
//! It stands on `mill_base`, `mill_geom` and `mill_cells`. It promises that the covered heights of
//! a column are exact, with any band and for every triangle, degenerate ones too, by a look at all
//! triangles or at those near the column alone. `SortedPart` is a part together with its cells.
//! Definitions: `mill_base`'s `specs/Covers`; here `specs/Tops`, `specs/Columns` and
//! `specs/Lines`.
#![tactic(auto)]

mod column;
mod laws;
mod line;
mod near;
mod part;
mod sorted_part;
mod whole;

pub use laws::covered_below;
pub use part::Part;
pub use sorted_part::SortedPart;
