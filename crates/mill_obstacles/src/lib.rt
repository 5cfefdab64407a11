//! What a tool has to keep off: the part, and the fixtures that stand on the machine.
//!
//! It stands on `mill_part` and `mill_job`. A fixture reaches from below up to its upper face, so
//! what comes from above meets that face first: two triangles stand for it (`specs/Faces`).
//! `obstacles` puts them behind the part's. Without fixtures the obstacles are the part (`laws`).
#![tactic(auto)]

mod faces;
mod kept_off;
mod laws;

pub use faces::{first_half, second_half};
pub use kept_off::obstacles;
pub use laws::no_fixtures_no_more;
