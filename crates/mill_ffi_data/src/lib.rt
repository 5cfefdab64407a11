//! What the calls of the library for C share: the numbers of a caller, and the tests of them.
//!
//! It stands on the part (mill_part), and exports nothing to C. `part`, `tool` and `lattice` test
//! a caller's numbers, which may be any, and make exactly the triangles, tool and lattice that
//! these stand for (`specs/Raw`), or tell the fault, whose cause is there (`specs/Tests`).
//! `specs/Faults` gives the code of each fault.
#![tactic(auto)]

mod fault;
mod lattice;
mod part;
mod raw;
mod tool;

pub use fault::Fault;
pub use lattice::lattice_from;
pub use part::{are_places, check_triangles, is_coordinate, part_from};
pub use raw::{
    RawChain, RawCounts, RawFiber, RawLattice, RawPlace, RawPlanned, RawPoint, RawReading, RawRun,
    RawTool, RawTriangle, RawVerdict,
};
pub use tool::tool_from;
