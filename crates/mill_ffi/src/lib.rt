//! The library for C: the proved calls, on numbers, texts and arrays alone.
//!
//! It stands on mill_ffi_data, the readers of texts and the calls themselves (mill_drop, mill_push,
//! mill_level, mill_verify, mill_plan). Each export tests its arguments, so it has no `requires`.
//! With status 0 what was asked for stands in the lent array; with any other that is as it was,
//! and the fault has its cause. Definitions: `specs/Asked`, `specs/Lattices`, `specs/Levels`,
//! `specs/Fibers`, `specs/Texts`, `specs/Judged`, `specs/Plans`. What nothing can test, where
//! pointers lead, is in include/camtool.h.
#![tactic(auto)]

mod drop;
mod level;
mod map;
mod plan;
mod runs;
mod setup;
mod text;
mod verify;

pub use drop::camtool_drop_heights;
pub use level::camtool_waterline;
pub use map::camtool_drop_map;
pub use mill_ffi_data::{
    Fault, RawChain, RawCounts, RawFiber, RawLattice, RawPlace, RawPlanned, RawPoint, RawReading,
    RawRun, RawTool, RawTriangle, RawVerdict,
};
pub use plan::camtool_plan;
pub use runs::camtool_runs;
pub use text::camtool_read_part;
pub use verify::camtool_verify;
