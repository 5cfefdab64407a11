//! The push-cutter: the positions along a line at one height at which a tool gouges.
//!
//! It stands on mill_part, mill_geom, mill_hints and the contact crates. `push` promises the maximal
//! runs of those positions, with the cutter or its holder, exactly, for every triangle and tool; the
//! touches that it takes are in all at most 40 for each triangle near the line, with a holder 80.
//! `push_after` promises the same, and mostly takes fewer along lines side by side. Definitions:
//! `specs/Fibers`, `specs/Runs`, `specs/Stretches`, `specs/Touches`.
#![tactic(auto)]

mod around;
mod contact;
mod fiber;
mod inside;
mod known;
mod laws;
mod near;
mod probe;
mod reach;
mod runs;
mod solids;
mod start;
mod stretch;
mod union;
mod window;

pub use contact::counted_touch;
pub use fiber::{Fiber, Run};
pub use laws::{one_list_of_runs, one_stretch, runs_hold_blocked};
pub use mill_geom::{Axis, Side, Touch};
pub use mill_hints::Ends;
pub use runs::{push, push_after};
