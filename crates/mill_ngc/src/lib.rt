//! Reads a program of G-codes: exactly the moves that its text means, or its first fault with the
//! line.
//!
//! It stands on `mill_block` for what a line does, after a profile of NISTIR 6556 (RS274/NGC
//! version 3). A text comes in pieces, cut anywhere, and is read line by line with no memory but
//! that of the moves. `specs/Programs.antt` has what a whole text means, `specs/Pieces.antt` what
//! is read so far of one that comes in pieces, `specs/TextPaths.antt` the path of a program's own
//! numbers before they are rounded, `specs/RealWays.antt` where a machine goes on it.
#![tactic(auto)]

mod laws;
mod line;
mod line_end;
mod lines;
mod place;
mod program;
mod reader;
mod text_reader;
mod unfinished;
mod walk;

pub use laws::{pieces_join, pieces_read_program, program_is_foreseen, program_is_rounded};
pub use mill_said::{Control, NgcFault, Rules, Words};
pub use place::{LineSpan, line_words};
pub use program::write_program;
pub use reader::Reader;
pub use walk::places;
