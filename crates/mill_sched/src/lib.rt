//! How workers share numbered pieces of work, as a machine that takes one event of a worker after
//! another.
//!
//! It stands on mill_base; no worker is a thread here. `Core::step` and `Core::run` do exactly
//! what `specs/Steps` says of an event. After every list of events (`specs/Laws`) each number was
//! drawn once, each piece is at home or held by one worker, and, once nothing is left to be done,
//! the least value is the least turn at which a piece fails. `specs/States` describes a state,
//! `specs/Kept` what each keeps.
#![tactic(auto)]

mod event;
mod piece;
mod state;
mod worker;

pub use event::{Event, Outcome};
pub use state::Core;
