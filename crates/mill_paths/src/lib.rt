//! The paths of a plan: the places that the cutter comes to, in their order.
//!
//! It stands on `mill_job`, `mill_drop`, `mill_level` and `mill_links`. The visits of roughing, of
//! waterlines and of finishing are exactly those of `specs/Visits`, each free of the part, whether
//! a [`PathCrew`] is the threads of a runtime or the calling thread. `specs/Lattices`,
//! `specs/RowPaths` and `specs/Limits` say over what, in which order and how many; by
//! `specs/Plans` and `specs/Unique` a job and a part have one plan at most.
#![tactic(auto)]

mod crew;
mod fault;
mod lattices;
mod levels;
mod path;
mod plan_laws;
mod row_paths;
mod row_visits;
mod visit_list;
mod visits;
mod waterlines;
mod zigzag;

pub use crew::PathCrew;
pub use fault::PathFault;
pub use lattices::{finish_lattice, rough_lattice};
pub use levels::level_visits;
pub use mill_links::Visit;
pub use plan_laws::{
    many_visits_make_moves, one_plan, plan_is_longer, round_is_safe, visits_are_free,
};
pub use visits::{finish_visits, rough_visits};
