//! The list of all moves of a program that fail a test, and of the columns left too high.
//!
//! It stands on `mill_verify`, whose tests and reasons it tells of. A finding is a move with the
//! first test that it fails, on the stock that every move before it has cut, failing or not.
//! `all_findings` promises every finding, in order, and the columns left too high
//! (`specs/Findings`, `specs/Columns`); its first is the verdict's reason, and a program is
//! accepted exactly where there is none (`specs/Laws`).
#![tactic(auto)]

mod laws;
mod left;
mod moves;
mod pass;
mod report;
mod step;

pub use laws::{
    accepted_has_nothing, first_is_verdict, first_left_is_verdict, nothing_is_accepted, one_left,
    one_list, verdict_is_first,
};
pub use left::{LeftColumn, LeftColumns, MAX_LEFT};
pub use report::{Findings, all_findings};
