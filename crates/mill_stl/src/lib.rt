//! Reads and writes ASCII STL texts of parts, as triangles in whole units.
//!
//! It stands on `mill_base` for the triangles and on `mill_decimal` for the coordinates. It reads
//! exactly the triangles that the text means, or tells its first bad place with the line, in one
//! pass that copies no word (`specs/Facets.antt` word by word, `specs/Parts.antt` byte by byte).
//! What it writes reads back as exactly the triangles, none rounded (`specs/Written.antt`).
#![tactic(auto)]

mod facet;
mod fault;
mod reading;
mod scan;
mod state;
mod writing;

pub use fault::{StlFault, What};
pub use reading::read_stl;
pub use state::StlRead;
pub use writing::write_stl;
