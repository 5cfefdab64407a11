//! What the tests' tables of cases are read by: the words of a row, numbers, points, triangles,
//! cutters, holders, moves, jobs.
//!
//! A table is one text, a row a line, so that a test's proof costs the same however many rows there
//! are. A row is looked at by a function of its own, and functions with a loop do nothing else: the
//! proof of a test costs the more, the more values are alive beside a loop and a `?`.
//!
//! It stands on mill_base, mill_geom, mill_part and mill_job, and no program uses it. What a reader
//! gives is in the range that its contract names, or the row is refused with a `Fail`. Definitions:
//! `CutsAt` and `Replaced` of a text (specs/Rows.antt), and those of the crates below.
#![tactic(auto)]

mod jobs;
mod moves;
mod parts;
mod points;
mod shapes;
mod values;
mod words;

pub use jobs::job_by;
pub use moves::{feed, kind, moves_of, step, step_fits};
pub use parts::{part_of, part_under};
pub use points::{corners, lattice, place, placed, point, tip, triangle};
pub use shapes::{cutter, holder, tool, wide_cutter};
pub use values::{coordinate, number, numbers};
pub use words::{add, add_with_comma, first_word, halves, owned_words, with_bytes, with_lines};
