//! A grid of square cells over a part's triangles, by which the triangles near an area are found.
//!
//! It stands on mill_base. `Cells::near` promises every triangle whose box in x and y meets an
//! area, each once, and no other; `near_over` those of them over a height, and `near_rising` those
//! over a height that may rise. `Cells::size_for` keeps the grid small on any mesh. Definitions:
//! `specs/Boxes`, `specs/Frames`, `specs/Sizes`, `specs/Sorted` and `specs/Ahead`.
#![tactic(auto)]

mod boxes;
mod cells;
mod frame;
mod grid;
mod lids;
mod near;
mod near_over;
mod near_rising;
mod placing;
mod size;
mod walk;

pub use cells::Cells;
pub use near::Near;
pub use near_over::NearOver;
pub use near_rising::NearRising;
