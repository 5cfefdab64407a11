//! Solids with a margin around them, or taken off them: what holds of a tool wherever the machine's
//! tip is within a distance of where it should be.
//!
//! It stands on mill_base and, for its lemmas on roots, on mill_shape. `grown` and `shrunk` make
//! them, exactly or by less than a unit more (`specs/Margins`); the laws say what each holds
//! (`specs/Laws`).
#![tactic(auto)]

mod laws;
mod margin;

pub use laws::{grown_holds, inside_is_held, near_bent_is_near, near_text_is_near, shrunk_is_held};
pub use margin::{MAX_MARGIN, grown, offset, shrunk};
