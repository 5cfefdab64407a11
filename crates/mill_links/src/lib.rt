//! The moves that link the place where the cutter is to the next that it comes to.
//!
//! It stands on `mill_job`, on `mill_gouge` and on `mill_dexel`, whose rows are the stock that the
//! moves so far leave. `link`, `link_known` and `home` promise exactly the moves of `specs/Links`
//! and `specs/Tours`; by `specs/Safety` each of these passes the tests of floor, part and holder,
//! and, with the cutter, of the stock.
#![tactic(auto)]

mod begin;
mod laws;
mod links;
mod visit;

pub use begin::head;
pub use laws::{head_is_safe, link_is_safe, tour_is_safe, way_home_is_safe};
pub use links::{goes_clear, home, link, link_known};
pub use visit::Visit;
