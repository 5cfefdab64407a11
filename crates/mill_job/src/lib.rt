//! A job: the tool, the stock, its columns, the tolerances, and the TOML text that tells them.
//!
//! It stands on `mill_base`, on `mill_decimal` for how decimals are taken, on `mill_margin` for how
//! far down a cutter reaches with a margin around it, and on the kit's `toml`. It promises that a
//! text is read exactly as its definition says, down to which fault comes first, and that every job
//! that was read is in range (`specs/Jobs`). What a text means is in `specs/Documents` and the
//! modules that it cites, where columns stand in `specs/Columns`, and what a text means that names
//! no unit in `specs/NoUnit`.
#![tactic(auto)]

mod arrays;
mod cutter;
mod document;
mod fault;
mod fields;
mod fitting;
mod fixtures;
mod groups;
mod habits;
mod holder;
mod job;
mod keep_out;
mod key;
mod laws;
mod levels;
mod limits;
mod list;
mod name;
mod positions;
mod reading;
mod relations;
mod slack;
mod solids;
mod step;
mod step_limits;
mod tables;
mod values;

pub use cutter::read_cutter;
pub use document::{first_unknown, read_document};
pub use fault::JobFault;
pub use fields::{JobFields, Place};
pub use fixtures::{Fixture, Fixtures};
pub use habits::{Rapids, Start, ToolLengths, Words};
pub use job::Job;
pub use key::Key;
pub use laws::unit_left_out;
pub use levels::Levels;
pub use list::read_list;
pub use name::Name;
pub use reading::read_job;
pub use solids::Solids;
pub use step::Step;
pub use step_limits::MAX_STEPS;
pub use values::find;
