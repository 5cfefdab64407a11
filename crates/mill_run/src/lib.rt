//! All that the program does: `verify`, `rest`, `plan`, `drop`, `level`, `stock` and `sample`.
//!
//! It stands on `mill_load` for the files, on `mill_command` for the words, on `mill_answer` for lines
//! and statuses, and on the crates that do the work. `run` takes the words of a call, over any store of files, and prints its answer to
//! any sink; its contract goes from bytes to bytes, whatever the files hold, if they hold what the
//! reads gave: `specs/Answers` says which answer a command has on its files, `specs/Outcomes` how
//! it is shown and stored, `specs/Headline` what it means.
//! Each command has a file here and a module in `specs/`. `one_answer` is the law that a request has
//! one answer, and `end` gives the process its exit status.
#![tactic(auto)]

mod commands;
mod drop;
mod ending;
mod keeping;
mod laws;
mod level;
mod plan;
mod rest;
mod sample;
mod sample_part;
mod stock;
mod verify;

pub use commands::run;
pub use ending::end;
pub use laws::one_answer;
pub use sample_part::sample_setup;
