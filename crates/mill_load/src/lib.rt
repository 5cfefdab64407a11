//! The files of a command: its job, its part and its programs, read from a store.
//!
//! It stands on the store of `mill_io` and on the readers `mill_job`, `mill_stl` and `mill_ngc`. It
//! promises that what is read of a file is what its text means, or the first fault, with all that was
//! read before; and that reading changes nothing in the store. What it says of a text is right by
//! whatever the files hold, if they hold what the reads gave: so it is by what the store tells of them.
//! It also reads the words of a command that say where, in the job's unit.
//! Definitions: `specs/Setup` of job and part, `specs/Programs` with `rules_of`, `specs/Places`, and `specs/Loads` of
//! what reading comes to.
#![tactic(auto)]

mod file;
mod limits;
mod load;
mod place;
mod program;
mod rapids;
mod rules;

pub use file::File;
pub use limits::MAX_JOB_BYTES;
pub use load::{
    LoadFault, Setup, Unfit, job_from, load_job, load_setup, load_under, part_from, read_file,
    setup_from,
};
pub use place::{Coordinate, WordFault, read_height, read_place};
pub use program::{load_program, moves_from, read_moves};
pub use rapids::run_moves;
pub use rules::rules_for;
