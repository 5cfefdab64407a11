//! Plans a program that the verifier accepts, or says why there is none.
//!
//! It stands on `mill_paths`, `mill_links`, `mill_obstacles`, `mill_verify`, `mill_ngc` and
//! `mill_crew`. It promises that the answer is the planner's, whatever the crew, and that there is at
//! most one; that what it planned reads back as the plan's moves and is accepted; and that a plan,
//! which keeps off the fixtures too, is rejected only for stock that it leaves, or that the holder
//! would touch. Definitions: `specs/Plans`, `specs/Faults`.
#![tactic(auto)]

mod crew;
mod fault;
mod feeds;
mod laws;
mod moves;
mod planned;
mod program;

pub use fault::PlanFault;
pub use laws::{one_plan_answer, plan_never_fails};
pub use planned::Planned;
pub use program::plan;
