//! Who does the parts of a work that don't wait for one another: threads of a runtime, or the
//! calling thread alone.
//!
//! It stands on mill_base. A crew is a value, so that a work is one call, whoever does it. Each
//! crate that parts its work says in a trait over `Crew` what its crews can do:
//! `mill_drop::DropCrew` and `mill_paths::PathCrew`. Those of mill_verify and mill_plan are sealed:
//! a call takes these two crews, and nobody else writes one.
#![tactic(auto)]

mod crew;

pub use crew::{Alone, Crew, Threaded};
