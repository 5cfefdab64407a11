//! Waterlines: the places round a part, chain by chain, up to which a tool can come at one height.
//!
//! It stands on the push-cutter (mill_push). `waterline` promises the chains of a lattice's
//! crossings, exactly: each crossing between a free and a blocked node stands in one of them,
//! once, at the last free position. The way from one place to the next isn't looked at.
//! Definitions: `specs/Grids`, `specs/Crossings`, `specs/Joins`, `specs/Chains`,
//! `specs/Waterlines`.
#![tactic(auto)]

mod chain;
mod cut;
mod edge;
mod fault;
mod fiber;
mod grid;
mod laws;
mod map;
mod outline;
mod square;
mod trace;
mod trails;
mod waterlines;

pub use chain::Chain;
pub use edge::Edge;
pub use fault::LevelFault;
pub use laws::{joins_are_apart, one_waterline};
pub use waterlines::waterline;
