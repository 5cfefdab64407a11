//! What a command answers: its status, its lines, and how they are told; the same for every program.
//!
//! It stands on `mill_load` for what was read of a command's files, on `mill_verify` for the verdict,
//! on the sink of `mill_io`, on `mill_decimal` for the text of a length and on `itoa` for that of a
//! number. It promises exactly the line and the status that the definitions give a fault or a verdict,
//! and that a line is printed whole, or the status is that of a failed write and a prefix of it was.
//! `one_judgment` is the law that three files that are told are judged in one way.
//! Definitions: `specs/Lines` of a line by its words, `specs/Faults`, `specs/Printed` and
//! `specs/Statuses` of lines and statuses, `specs/Prints` of telling, `specs/Calls` of a call as the
//! outside sees it, `specs/Verify` of a verdict on files, `specs/ByText` of what it says by a
//! program's own numbers, `specs/Judgments` of the law.
#![tactic(auto)]

mod faults;
mod laws;
mod line;
mod print;
mod status;
mod telling;
mod verdict;
mod word;

pub use faults::{line_of_fault, line_of_word_fault, status_of_fault};
pub use laws::one_judgment;
pub use line::{add_line, line_of};
pub use print::{line_of_column, line_of_nodes, line_with_margins};
pub use status::{Status, exit_code_of};
pub use telling::{tell, tell_fault, tell_made, tell_memory};
pub use verdict::{line_of_reason, line_of_verdict, status_of_verdict};
pub use word::Word;
