//! Points, triangles, moves and cutters on a grid of whole units, and exact whole-number
//! arithmetic.
//!
//! It stands on nothing but std, and every other crate stands on it. Products, roots and roundings
//! are exact. Its definitions say which points a cutter strictly holds, what a move gouges and
//! removes, which heights of a column are covered, and the limits of all: `specs/`, one module a
//! subject. `proofs/` has the prover of polynomial facts that the geometry crates share.
#![tactic(auto)]

mod arithmetic;
mod cutter;
mod lattice;
mod limits;
mod memory;
mod motion;
mod points;
mod roots;
mod rounding;
mod solid;
mod steps;
mod tool;
mod unit;

pub use arithmetic::{offset, product, square, square_sum};
pub use cutter::Cutter;
pub use lattice::Lattice;
pub use limits::{
    LOWEST_LIFT, LOWEST_TIP, MAX_COLUMNS, MAX_COORDINATE, MAX_DEPTH, MAX_FILE_BYTES,
    MAX_LAST_REACH, MAX_MOVES, MAX_NODES, MAX_RADIUS, MAX_REACH, MAX_TEXT_COORDINATE,
    MAX_TRIANGLES, MAX_WIDE_RADIUS, MAX_WORKERS,
};
pub use memory::WantOfMemory;
pub use motion::{Kind, Move};
pub use points::{Box2, Pt3, Tri};
pub use roots::{ceil_root, floor_root};
pub use rounding::{power_of_two, round_half_up};
pub use solid::Solid;
pub use steps::Steps;
pub use tool::Tool;
pub use unit::Unit;
